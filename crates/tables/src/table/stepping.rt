// One event: the table does what the definitions say.
ghost use Rattle.mappings.specs.Steps.{handled, step as step_of};
ghost use Rattle.tables.specs.Models.{Did, Does, config_of, ends, lines_of, model};
ghost use Rattle.std.specs.Prelude.{◌≡◌, false, []};

use super::Table;
use blocks::refusal::Refusal;
use mappings::event::{Event, Verdict};

impl Table {
    // Whether the run is over, or ends by this event: the count of events or the tick has reached its end.
    fn ends_by(&self, event: &Event) -> bool
        ensures { result ≡ ends event.now (model self.now) }
    {
        self.over
            || self.moment == u64::MAX
            || (matches!(event, Event::Tick) && self.tick == u32::MAX)
    }

    // What the event does, but for the count of events.
    fn handle(&mut self, event: &Event) -> Verdict
        requires lines { lines_of self.old ≡ [] }
        requires goes_on { ends event.now (model self.old) ≡ false }
        ensures { Does (config_of self.old) self.old.moment (handled (config_of self.old) event.now (model self.old)) self.new result (lines_of self.new) }
    {
        match event {
            Event::Unreadable(refusal) => Verdict::Refused(*refusal),
            Event::Goes(packet) => {
                let (verdict, line) = self.goes(packet);
                if let Some(line) = line {
                    self.lines.push_reserved(line);
                }
                verdict
            }
            Event::Comes(packet) => {
                self.arrival(packet, Refusal::NoMapping, Refusal::NotRemembered)
            }
            Event::ErrorGoes(packet) => self.error_out(packet),
            Event::ErrorComes(packet) => self.arrival(
                packet,
                Refusal::UnrelatedError,
                Refusal::UnrelatedError,
            ),
            Event::Tick => self.ticks(),
        }
    }

    // Handles one event, and says what becomes of it.
    pub fn step(&mut self, event: &Event) -> Verdict
        ensures { Did (config_of self.old) (step_of (config_of self.old) event.now (model self.old)) self.new result }
    {
        self.lines.clear();
        // nothing else changes, not even the count of events
        if self.ends_by(event) {
            self.over = true;
            return Verdict::Refused(Refusal::Exhausted);
        }
        let verdict = self.handle(event);
        self.moment += 1;
        verdict
    }
}
