// The theorems about messages, each the contract of a function.
ghost use Rattle.errors.specs.Laws.{MessagesAreHeaded, OthersStay, OwnSumsAreFresh, QuotedSumsStayRight, ReadAgain, ThereAndBack};

// What is written can be read again, with fresh sums, and nothing else was changed.
pub fn written_messages_are_right()
    ensures again { ReadAgain }
    ensures fresh { OwnSumsAreFresh }
    ensures others { OthersStay }
{}

// A quoted sum is as right or as wrong as it was.
pub fn quoted_sums_stay_right()
    ensures { QuotedSumsStayRight }
{}

// An error that quotes a packet which left comes back as one about the packet that had come.
pub fn quotes_come_back()
    ensures { ThereAndBack }
{}

// Where a message comes from, where it goes to, and whether it may go on is what its own header says, packet or error.
pub fn messages_are_headed()
    ensures { MessagesAreHeaded }
{}
