// ICMP errors and the packets that they quote: read from bytes, and written with the quoted end replaced.
#![tactic(auto)]

pub mod laws;
pub mod notice;
pub mod reader;
pub mod relocating;
pub mod writer;
