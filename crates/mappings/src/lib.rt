// Mappings of subscribers' ports to external ports: the gateway as a state machine over events, and what is promised of it.
#![tactic(auto)]

pub mod event;
pub mod line;
pub mod promise;
