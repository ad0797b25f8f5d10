// What is asked of the slots, and what becomes of them.
ghost use Rattle.std.specs.Prelude.{◌≡◌, ℕ, ◌<◌, ◌≤◌, Some, IfOk, map, slice_index};
ghost use Rattle.blocks.specs.Config.{blocks_of};
ghost use Rattle.blocks.specs.Settings.{config};
ghost use Rattle.mappings.specs.States.{block_ports, no_mapping};
ghost use Rattle.mappings.specs.Steps.{is_used, left_at, noting_at, put};
ghost use Rattle.std.specs.Fn.{FnReturnsAt};
ghost use Rattle.std.specs.List.{flat_map};
ghost use Rattle.std.specs.Option.{option_copied};
ghost use Rattle.tables.specs.Backs.{kept_in};
ghost use Rattle.tables.specs.Rows.{meaning, slot, slots_in};
ghost use Rattle.tables.specs.Sought.{Finds};

use super::Slots;
use crate::mapping::Mapping;
use blocks::settings::Settings;
use std::alloc::{AllocError, Global};

// Mappings that have rested at this tick go.
fn let_go(slots: &mut [Option<Mapping>], tick: u32, settings: &Settings)
    ensures { slots.new ≡ map (kept_in (config settings.now) tick) slots.old }
{
    for slot in slots.iter_mut() {
        // most slots stay, so none is written but those whose mapping goes
        let _ = slot.take_if(|mapping| !mapping.is_kept(tick, settings));
    }
}

impl Slots {
    // No port has a mapping: here their memory is taken.
    pub fn none(heap: Global) -> Result<Slots, AllocError>
        ensures { IfOk result (λ slots. slots_in slots ≡ no_mapping) }
    {
        let of = vec![in heap; None; 64512]?;
        Ok(Slots { of })
    }

    // The mapping that has the port.
    pub fn at(&self, port: u16) -> Option<&Mapping>
        ensures { slot (option_copied result) ≡ slots_in self.now port }
    {
        self.of[usize::from(port).checked_sub(1024)?].as_ref()
    }

    // The port has this mapping from now on.
    pub fn put(&mut self, port: u16, mapping: Mapping)
        requires { 1024 ≤ port }
        ensures { slots_in self.new ≡ put (slots_in self.old) port (Some (meaning mapping)) }
    {
        self.of[usize::from(port) - 1024] = Some(mapping);
    }

    // One more packet went out by the port, at this tick and to this address.
    pub fn note(&mut self, port: u16, tick: u32, address: u32)
        requires { 1024 ≤ port }
        ensures { slots_in self.new ≡ put (slots_in self.old) port (noting_at tick address (slots_in self.old port)) }
    {
        let place = usize::from(port) - 1024;
        self.of[place] = self.of[place].map(|mapping| mapping.noting(tick, address));
    }

    // Mappings that have rested at this tick go.
    pub fn let_go(&mut self, tick: u32, settings: &Settings)
        ensures { slots_in self.new ≡ left_at (config settings.now) tick (slots_in self.old) }
    {
        let_go(&mut self.of, tick, settings);
    }

    // Whether a mapping, live or resting, has a port of the block.
    pub fn is_used(&self, block: u16, settings: &Settings) -> bool
        ensures { result ≡ is_used (config settings.now) (slots_in self.now) block }
    {
        let size = usize::from(settings.size());
        let start = usize::from(block) * size;
        // in two steps: in one, by `is_some_and` or by `unwrap_or`, it gets no proof
        let Some(slots) = self.of.get(start..start + size) else {
            return false;
        };
        slots.iter().any(Option::is_some)
    }

    // The first port whose slot passes, in these blocks, which are looked through in this order.
    // Nested loops, left by a label at the first such port, are the project's form for this.
    pub fn find_port<F: Fn(&Option<Mapping>) -> bool>(
        &self,
        blocks: &[u16],
        settings: &Settings,
        passes: &F,
    ) -> Option<u16>
        requires callable { F.IsAlwaysCallable passes.now }
        requires blocks { (k : ℕ) → slice_index blocks.now k < blocks_of (config settings.now) }
        ensures { Finds (FnReturnsAt F.Fn passes.now) (slots_in self.now) (flat_map (block_ports (config settings.now)) blocks.now) result }
    {
        let size = usize::from(settings.size());
        'search: {
            for block in blocks {
                let start = usize::from(*block) * size;
                for at in start..start + size {
                    if passes(&self.of[at]) {
                        break 'search Some((1024 + at) as u16);
                    }
                }
            }
            None
        }
    }
}
