// The theorems about sums, each the contract of a function.
ghost use Rattle.sums.specs.Examples.{WorkedNumbers};
ghost use Rattle.sums.specs.Laws.{FreshIsRight, ManyWords, MovedIsFresh, MovedIsOff, MovedToZero, OneIsRight, OneWord};

// One changed word, and a list of them, move the sum of all words by what they lose and gain.
pub fn edits_move_sums()
    ensures one { OneWord }
    ensures many { ManyWords }
{}

// A moved sum is the fresh one, or off by as much as the old one was; a fresh sum is right, and no other is.
pub fn moved_sums_are_fresh()
    ensures fresh { MovedIsFresh }
    ensures zero { MovedToZero }
    ensures off { MovedIsOff }
    ensures right { FreshIsRight }
    ensures alone { OneIsRight }
{}

// The definitions give the numbers that the standards work out.
pub fn worked_numbers_agree()
    ensures { WorkedNumbers }
{}
