// Packets: IPv4 with UDP, TCP and echoes, read from bytes, and written with an address and a port replaced.
#![tactic(auto)]

pub mod addresses;
pub mod admission;
pub mod facts;
pub mod laws;
pub mod parts;
pub mod places;
pub mod reader;
pub mod writer;
