// The promises, each as the contract of a function: a crate in which one of them does not hold is not built.
ghost use Rattle.mappings.specs.Examples.{Worked};
ghost use Rattle.mappings.specs.Promise.{Agreed, Alone, Answered, ErrorsAnswered, FaceStays, FaceUsed, GivenInNeed, Held, HeldByTick, HeldInUse, InOrder, InwardsQuiet, Lasting, LetIn, Limits, Main, MovesBack, Noted, OneFace, OneOwner, Over, Refusals, Remembered, Served, ShortBook, TakenRested, Traced, TracedByTick, TwoLines};

// A port in use or resting is one subscriber's, which holds its block; a live port has one face, goes out by it, and keeps it.
pub fn one_owner_one_face()
    ensures owner { OneOwner }
    ensures agreed { Agreed }
    ensures busy { HeldInUse }
    ensures face { OneFace }
    ensures used { FaceUsed }
    ensures stays { FaceStays }
{}

// The book names the sender of each packet, by moment and by tick; it names nobody else, and what follows changes no answer.
pub fn senders_are_named()
    ensures traced { Traced }
    ensures held { Held }
    ensures lasting { Lasting }
    ensures tick { TracedByTick }
    ensures within { HeldByTick }
{}

// What is let in answers an earlier packet of the subscriber that gets it, and an error that goes out is about one.
pub fn arrivals_are_answers()
    ensures answered { Answered }
    ensures errors { ErrorsAnswered }
{}

// The book has a line for each giving and taking back of a further block, in order, and no other.
pub fn book_is_short()
    ensures lines { ShortBook }
    ensures two { TwoLines }
    ensures order { InOrder }
    ensures rested { TakenRested }
{}

// A packet goes out unless no port is left, a further block is given only in need, and an answer is let in: what a port sent to is remembered.
pub fn subscribers_are_served()
    ensures out { Served }
    ensures need { GivenInNeed }
    ensures answers { LetIn }
    ensures noted { Noted }
    ensures remembered { Remembered }
    ensures lasting { MovesBack }
{}

// A refusal, and whatever comes in, changes nothing but the count of events; the end of a run lasts.
pub fn refusals_change_nothing()
    ensures refused { Refusals }
    ensures inwards { InwardsQuiet }
    ensures ended { Over }
    ensures limits { Limits }
{}

// What the others do changes nothing for a subscriber that does with its first block.
pub fn others_change_nothing()
    ensures { Alone }
{}

// All of them together.
pub fn promise_holds()
    ensures { Main }
{}

// The worked examples of docs/RULES.md.
pub fn examples_work()
    ensures { Worked }
{}
