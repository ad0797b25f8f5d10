// One event of the gateway at a time: a packet's bytes with its side, a packet that comes in right after it went out, or a tick.
ghost use Rattle.blocks.specs.Settings.{config};
ghost use Rattle.hairpin.specs.Events.{event_of, return_of};
ghost use Rattle.hairpin.specs.Gateways.{Handled, IsFresh, config_in, lines_in, state_in};
ghost use Rattle.hairpin.specs.Promise.{Main};
ghost use Rattle.mappings.specs.declared.event.Event.TheVariants as the_event;
ghost use Rattle.packets.specs.Reading.{read_of};
ghost use Rattle.std.specs.Prelude.{◌≡◌, [], IfOk};

use super::Gateway;
use crate::events::{event, return_event};
use crate::outcome::Outcome;
use crate::promise::promise_holds;
use crate::rewriting::{is_to_us, leave, outcome};
use blocks::settings::Settings;
use mappings::event::Event;
use mappings::line::Line;
use packets::facts::Parsed;
use packets::reader::read;
use records::record::Side;
use std::alloc::{AllocError, Global};
use tables::table::Table;

impl Gateway {
    // A gateway that has seen nothing yet. All its memory is taken here. Of every run from here on all promises over bytes hold.
    pub fn new(heap: Global, settings: Settings) -> Result<Gateway, AllocError>
        ensures gateway { IfOk result (IsFresh (config settings)) }
        ensures promise { Main }
    {
        promise_holds();
        let table = Table::new(heap, settings)?;
        Ok(Gateway { table })
    }

    // A packet from this side. Its bytes are rewritten as it leaves; those of a refused one stay as they were.
    // A packet that is turned comes in by `turn`, as the next event.
    pub fn packet(&mut self, side: Side, bytes: &mut [u8]) -> Outcome
        ensures { Handled (config_in self.old) (state_in self.old) 1 (event_of (config_in self.old) side bytes.old) bytes.old self.new result bytes.new }
    {
        let reading = read(bytes);
        let event = event(&self.table.settings(), side, reading);
        self.handle(reading, event, 1, bytes)
    }

    // The packet that was turned, in the bytes with which it went out, comes in.
    pub fn turn(&mut self, bytes: &mut [u8]) -> Outcome
        ensures { Handled (config_in self.old) (state_in self.old) 0 (return_of (config_in self.old) bytes.old) bytes.old self.new result bytes.new }
    {
        let reading = read(bytes);
        let event = return_event(&self.table.settings(), reading);
        self.handle(reading, event, 0, bytes)
    }

    // A tick, which has no bytes.
    pub fn tick(&mut self) -> Outcome
        ensures { Handled (config_in self.old) (state_in self.old) 0 the_event.Tick [] self.new result [] }
    {
        outcome(false, self.table.step(&Event::Tick))
    }

    // What the last event wrote into the book.
    pub fn lines(&self) -> &[Line]
        ensures { result.now ≡ lines_in self.now }
    {
        self.table.lines()
    }

    // How many events were counted.
    pub fn moment(&self) -> u64
        ensures { result ≡ (state_in self.now).moment }
    {
        self.table.moment()
    }

    // The tick that it is.
    pub fn time(&self) -> u32
        ensures { result ≡ (state_in self.now).tick }
    {
        self.table.tick()
    }

    fn handle(&mut self, reading: Parsed, event: Event, hops: u8, bytes: &mut [u8]) -> Outcome
        requires { read_of bytes.old ≡ reading }
        ensures { Handled (config_in self.old) (state_in self.old) hops event bytes.old self.new result bytes.new }
    {
        let settings = self.table.settings();
        let verdict = self.table.step(&event);
        leave(&settings, bytes, hops, reading, verdict);
        outcome(is_to_us(&settings, reading), verdict)
    }
}
