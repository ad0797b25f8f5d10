// The theorems about packets, each the contract of a function.
ghost use Rattle.packets.specs.Laws.{OthersStay, OutAndBack, ReadAgain, SumsAreFresh};

// What is written can be read again, with fresh sums, and nothing else was changed.
pub fn written_packets_are_right()
    ensures again { ReadAgain }
    ensures fresh { SumsAreFresh }
    ensures others { OthersStay }
{}

// An answer to what went out comes back to where that came from.
pub fn answers_come_back()
    ensures { OutAndBack }
{}
