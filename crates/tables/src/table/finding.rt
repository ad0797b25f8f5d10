// What is found in the table for a packet; nothing is changed.
ghost use Rattle.std.specs.Prelude.{◌≡◌, ◌-◌, ◌<◌, if◌then◌else◌, is_some, nat_lt};
ghost use Rattle.std.specs.Fn.{FnReturnsAt};
ghost use Rattle.blocks.specs.Config.{blocks_of};
ghost use Rattle.blocks.specs.Settings.{config};
ghost use Rattle.mappings.specs.Mappings.{is_of};
ghost use Rattle.mappings.specs.Searches.{first, range};
ghost use Rattle.mappings.specs.States.{ports_of};
ghost use Rattle.mappings.specs.Steps.{arrival as arrival_of, by_face_only, face_of, is_free, is_of_protocol, is_unheld, live_and, remembers};
ghost use Rattle.tables.specs.Models.{config_of, model};
ghost use Rattle.tables.specs.Rows.{slot as meaning_of};
ghost use Rattle.tables.specs.Sought.{Finds};

use super::Table;
use crate::mapping::Mapping;
use blocks::refusal::Refusal;
use blocks::settings::Settings;
use mappings::event::{Inward, Outward, Verdict};

// Whether the slot has the live mapping of the packet's protocol and port.
fn is_face(slot: &Option<Mapping>, packet: &Outward, tick: u32, settings: &Settings) -> bool
    ensures { result ≡ is_some (live_and (config settings.now) tick (is_of packet.now) (meaning_of slot.now)) }
{
    slot.as_ref().is_some_and(|mapping| mapping.is_live(tick, settings) && mapping.is_of(packet))
}

impl Table {
    // The first port whose slot passes, in the subscriber's first block and then in its further ones. That there is such
    // a subscriber each of these asks anew: a type for its number would have to hold the settings that it is a number of.
    fn own_port<F: Fn(&Option<Mapping>) -> bool>(&self, subscriber: u16, passes: &F) -> Option<u16>
        requires callable { F.IsAlwaysCallable passes.now }
        requires subscriber { subscriber < (config_of self.now).subscribers }
        ensures { Finds (FnReturnsAt F.Fn passes.now) (model self.now).slots (ports_of (config_of self.now) (model self.now) subscriber) result }
    {
        let further = self.further[usize::from(subscriber)].as_slice();
        self.slots
            .find_port(&[subscriber], &self.settings, passes)
            .or_else(|| self.slots.find_port(further, &self.settings, passes))
    }

    // The port of the packet's live mapping.
    pub(super) fn face(&self, packet: &Outward) -> Option<u16>
        requires { packet.now.subscriber < (config_of self.now).subscribers }
        ensures { result ≡ face_of (config_of self.now) packet.now (model self.now) }
    {
        let passes = |slot: &Option<Mapping>| is_face(slot, packet, self.tick, &self.settings);
        self.own_port(packet.subscriber, &passes)
    }

    // The first port of the subscriber's blocks that has no mapping.
    pub(super) fn free(&self, subscriber: u16) -> Option<u16>
        requires { subscriber < (config_of self.now).subscribers }
        ensures { result ≡ first (is_free (model self.now).slots) (ports_of (config_of self.now) (model self.now) subscriber) }
    {
        self.own_port(subscriber, &|slot: &Option<Mapping>| slot.is_none())
    }

    // The lowest further block that nobody has.
    pub(super) fn lowest_unheld(&self) -> Option<u16>
        ensures { result ≡ first (is_unheld (model self.now).holders) (range (config_of self.now).subscribers (blocks_of (config_of self.now) - (config_of self.now).subscribers)) }
    {
        self.given
            .lowest_out(self.settings.subscribers(), self.settings.blocks())
    }

    // Whether the mapping at this port remembers the address.
    fn remembers_at(&self, port: u16, address: u32) -> bool
        ensures { result ≡ remembers address ((model self.now).slots port) }
    {
        self.slots
            .at(port)
            .is_some_and(|mapping| mapping.remembers(address))
    }

    // What becomes of an error message on its way out.
    pub(super) fn error_out(&self, packet: &Outward) -> Verdict
        ensures { result ≡ (if nat_lt packet.now.subscriber (config_of self.now).subscribers then by_face_only packet.now (model self.now) (face_of (config_of self.now) packet.now (model self.now)) else Verdict.Refused Refusal.NoSubscriber) }
    {
        if packet.subscriber >= self.settings.subscribers() {
            return Verdict::Refused(Refusal::NoSubscriber);
        }
        match self.face(packet) {
            Some(port) if self.remembers_at(port, packet.to) => Verdict::Sent { port },
            _ => Verdict::Refused(Refusal::UnrelatedError),
        }
    }

    // What becomes of what comes in: it is delivered, or there is no such mapping, or the mapping has forgotten that address.
    pub(super) fn arrival(&self, packet: &Inward, missing: Refusal, forgotten: Refusal) -> Verdict
        ensures { result ≡ arrival_of missing forgotten packet.now.from (live_and (config_of self.now) self.now.tick (is_of_protocol packet.now) ((model self.now).slots packet.now.port)) }
    {
        let Some(mapping) = self.slots.at(packet.port).filter(|mapping| {
            mapping.is_live(self.tick, &self.settings) && mapping.has_protocol(packet.protocol)
        })
        else {
            return Verdict::Refused(missing);
        };
        if mapping.remembers(packet.from) {
            mapping.delivered()
        } else {
            Verdict::Refused(forgotten)
        }
    }
}
