// Settings of a gateway, its blocks of ports, and why an input may be refused.
#![tactic(auto)]

pub mod bytes;
pub mod laws;
pub mod place;
pub mod refusal;
pub mod settings;
