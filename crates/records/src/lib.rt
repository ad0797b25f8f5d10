// The input of a gateway: packets from either side, and ticks, one record after another.
#![tactic(auto)]

pub mod laws;
pub mod reader;
pub mod record;
