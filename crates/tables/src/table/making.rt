// Making a table: here all memory is taken.
ghost use Rattle.std.specs.Prelude.{IfOk};
ghost use Rattle.blocks.specs.Settings.{config};
ghost use Rattle.tables.specs.Models.{Began};

use super::Table;
use crate::bits::Given;
use crate::slots::Slots;
use arrayvec::ArrayVec;
use blocks::settings::Settings;
use std::alloc::{AllocError, Global};

impl Table {
    // The table of a gateway that has seen nothing yet.
    pub fn new(heap: Global, settings: Settings) -> Result<Table, AllocError>
        ensures { IfOk result (Began (config settings) 0 0) }
    {
        Table::at(heap, settings, 0, 0)
    }

    // The same at another tick and count of events.
    pub fn at(heap: Global, settings: Settings, tick: u32, moment: u64) -> Result<Table, AllocError>
        ensures { IfOk result (Began (config settings) tick moment) }
    {
        let slots = Slots::none(heap)?;
        let further = vec![in heap; ArrayVec::new(); usize::from(settings.subscribers())]?;
        let holders = vec![in heap; None; usize::from(settings.blocks())]?;
        let lines = Vec::with_capacity(heap, usize::from(settings.blocks()))?;
        Ok(Table {
            settings,
            slots,
            further,
            holders,
            given: Given::none(),
            lines,
            tick,
            moment,
            over: false,
        })
    }
}
