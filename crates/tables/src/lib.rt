// The tables that run: mappings by external port and blocks by subscriber, with the contract that each event does what the definitions say.
#![tactic(auto)]

mod bits;
mod mapping;
pub mod runs;
mod slots;
pub mod table;
