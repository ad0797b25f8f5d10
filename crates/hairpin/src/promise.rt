// The promises over bytes, each as the contract of a function: a crate in which one of them does not hold is not built.
ghost use Rattle.hairpin.specs.Promise.{Answered, Main, RunOfEvents, Traced, TurnedOnce, Untouched};

// A run on bytes is a run of events, and a refused packet stays as it was.
pub fn packets_are_events()
    ensures run { RunOfEvents }
    ensures refused { Untouched }
{}

// The book names the sender of each packet that left.
pub fn senders_are_named()
    ensures { Traced }
{}

// What is delivered answers an earlier packet of the subscriber that gets it.
pub fn arrivals_are_answers()
    ensures { Answered }
{}

// A packet between two subscribers comes in right after it went out, and its time to live falls once.
pub fn turned_packets_come_in()
    ensures { TurnedOnce }
{}

// All of them together.
pub fn promise_holds()
    ensures { Main }
{}
