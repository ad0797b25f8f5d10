// Why an input, the settings or a book is refused: one case for each cause, with its number.
ghost use Rattle.blocks.specs.Refusals.{number_of};
ghost use Rattle.std.specs.Prelude.{◌≡◌, Some, decimal};

use std::fmt;

#[derive(Clone, Copy, Debug, PartialEq, Eq)]
pub enum Refusal {
    // an input record or a book line of unknown kind, or one that is cut; settings of a wrong length
    Malformed,
    // a setting out of its range
    BadSettings,
    // no plain header of 20 bytes and version 4, a length that does not fit, or a fragment
    BadHeader,
    // a sum that is not right
    WrongSum,
    // neither UDP, TCP, an echo, nor an error that quotes at least 28 bytes of one
    UnknownProtocol,
    // from the inside, and no subscriber's address
    NoSubscriber,
    // no time to live is left
    Expired,
    // every port of the subscriber is in use or rests, and it can have no further block
    NoPort,
    // from the outside, to no live mapping of ours
    NoMapping,
    // the mapping has not sent to that address lately
    NotRemembered,
    // an error about a packet that no live mapping could have sent
    UnrelatedError,
    // the count of events or the tick has reached its end: the run is over
    Exhausted,
    // a book line that cannot follow the lines before it
    CannotFollow,
}

impl Refusal {
    // The number by which programs name this cause; within, a cause is named by its case.
    pub fn number(self) -> u8
        ensures { result ≡ number_of self }
    {
        match self {
            Refusal::Malformed => 1,
            Refusal::BadSettings => 2,
            Refusal::BadHeader => 3,
            Refusal::WrongSum => 4,
            Refusal::UnknownProtocol => 5,
            Refusal::NoSubscriber => 6,
            Refusal::Expired => 7,
            Refusal::NoPort => 8,
            Refusal::NoMapping => 9,
            Refusal::NotRemembered => 10,
            Refusal::UnrelatedError => 11,
            Refusal::Exhausted => 12,
            Refusal::CannotFollow => 13,
        }
    }
}

// A cause is printed as its number.
impl fmt::Display for Refusal {
    ghost output = { λ cause. Some (decimal (number_of cause)) };

    fn fmt<W: fmt::Write>(&self, f: &mut fmt::Formatter<W>) -> fmt::Result {
        fmt::Display::fmt(&self.number(), f)
    }
}
