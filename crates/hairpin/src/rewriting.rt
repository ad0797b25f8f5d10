// From a verdict to what becomes of a packet, and to the bytes that are left of it.
ghost use Rattle.blocks.specs.Settings.{config};
ghost use Rattle.hairpin.specs.Passages.{home_of, is_to_us, left_by, outcome_of};
ghost use Rattle.packets.specs.Reading.{read_of};
ghost use Rattle.packets.specs.declared.facts.Reading.TheVariants.{Packet};
ghost use Rattle.std.specs.Prelude.{◌≡◌, Ok};

use crate::outcome::Outcome;
use blocks::settings::Settings;
use mappings::event::Verdict;
use packets::facts::{End, Endpoint, Parsed, Reading, Relocation};
use packets::writer::write;

// Whether a packet goes to our own external address.
pub fn is_to_us(settings: &Settings, read: Parsed) -> bool
    ensures { result ≡ is_to_us (config settings.now) read }
{
    read.is_ok_and(|reading| reading.destination() == settings.external())
}

pub fn outcome(is_ours: bool, verdict: Verdict) -> Outcome
    ensures { result ≡ outcome_of is_ours verdict }
{
    match verdict {
        Verdict::Sent { .. } => {
            if is_ours {
                Outcome::Turned
            } else {
                Outcome::Out
            }
        }
        Verdict::Delivered { .. } => Outcome::In,
        Verdict::Refused(cause) => Outcome::Refused(cause),
        Verdict::Ticked => Outcome::Ticked,
    }
}

// Nothing is delivered to a number past the last subscriber's.
fn home(settings: &Settings, subscriber: u16) -> u32
    ensures { result ≡ home_of (config settings.now) subscriber }
{
    settings.address(subscriber).unwrap_or(0)
}

// Leaves of the packet what its verdict wants, its time to live less by `hops`; `read` is what was read of it.
pub fn leave(settings: &Settings, bytes: &mut [u8], hops: u8, read: Parsed, verdict: Verdict)
    requires { read_of bytes.old ≡ read }
    ensures { bytes.new ≡ left_by (config settings.now) hops read verdict bytes.old }
{
    let Ok(Reading::Packet(facts)) = read else {
        return;
    };
    let (end, address, port) = match verdict {
        Verdict::Sent { port } => (End::Source, settings.external(), port),
        Verdict::Delivered { subscriber, port } => {
            (End::Destination, home(settings, subscriber), port)
        }
        Verdict::Refused(_) | Verdict::Ticked => return,
    };
    let endpoint = Endpoint { address, port };
    write(
        bytes,
        facts,
        Relocation {
            end,
            endpoint,
            hops,
        },
    );
}
