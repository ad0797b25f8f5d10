// The table of a gateway: what it holds between two events, all of its memory taken when it is made.
ghost use Rattle.std.specs.Prelude.{◌≡◌, ℕ, ◌<◌, ◌≤◌, [], map, is_some, None, vec_len, vec_capacity, slice_index, slice_index_or};
ghost use Rattle.blocks.specs.Config.{blocks_of};
ghost use Rattle.blocks.specs.Settings.{config};
ghost use Rattle.tables.specs.Given.{is_given};
ghost use Rattle.tables.specs.Rows.{blocks_in};

use crate::bits::Given;
use crate::slots::Slots;
use arrayvec::ArrayVec;
use blocks::settings::Settings;
use mappings::line::Line;

mod finding;
mod making;
mod reading;
mod stepping;
mod ticking;
mod writing;

#[derive(Drop)]
pub struct Table {
    // in the table, so that a step needs nothing else; each method that changes the whole table says that they stay
    settings: Settings,
    slots: Slots,
    // for each subscriber its further blocks, in the order in which they were given
    further: Vec<ArrayVec<u16, 4>>,
    // for each block the subscriber that it was given to, if it is a further one
    holders: Vec<Option<u16>>,
    // the blocks that have a holder, as bits
    given: Given,
    // what the last event wrote into the book
    lines: Vec<Line>,
    tick: u32,
    // how many events came before
    moment: u64,
    // the count of events or the tick has reached its end
    over: bool,
    ghost by_subscriber: { vec_len further ≡ (config settings).subscribers },
    ghost by_block: { vec_len holders ≡ blocks_of (config settings) },
    ghost within: { (n k : ℕ) → slice_index (slice_index_or (map blocks_in further.items) n []) k < blocks_of (config settings) },
    ghost agree: { (b : ℕ) → is_given given.words b ≡ is_some (slice_index_or holders.items b None) },
    ghost room: { blocks_of (config settings) ≤ vec_capacity lines },
}
