// The whole gateway on input records.
#![tactic(auto)]

mod events;
pub mod gateway;
pub mod outcome;
pub mod promise;
mod rewriting;
