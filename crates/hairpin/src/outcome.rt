// What becomes of an event of the gateway.
use blocks::refusal::Refusal;

#[derive(Clone, Copy, Debug, PartialEq, Eq)]
pub enum Outcome {
    // the packet goes to the world
    Out,
    // the packet goes to a subscriber
    In,
    // the packet went out to our own external address, and comes in as the next event
    Turned,
    // the packet goes nowhere
    Refused(Refusal),
    Ticked,
}
