// Blocks that are given, as bits of 64-bit numbers.
ghost use Rattle.std.specs.Prelude.{◌≡◌, ℕ, ◌-◌, ◌<◌, true, false, ◌≢◌};
ghost use Rattle.mappings.specs.Searches.{first, range};
ghost use Rattle.tables.specs.Given.{is_given, is_out};

// Bits of 64-bit numbers are the project's form for given blocks: the lowest one that nobody has is looked for with a packet.
#[derive(Clone, Copy, Debug, PartialEq, Eq)]
pub struct Given {
    words: [u64; 63],
}

impl Given {
    // No block is given.
    pub fn none() -> Given
        ensures { (b : ℕ) → is_given result.words b ≡ false }
    {
        Given { words: [0; 63] }
    }

    // Whether the block is given.
    fn has(&self, block: u16) -> bool
        ensures { result ≡ is_given self.now.words block }
    {
        self.words
            .get(usize::from(block / 64))
            .is_some_and(|word| (*word >> (block % 64)) % 2 == 1)
    }

    // Notes that the block is given.
    pub fn put(&mut self, block: u16)
        requires { block < 4032 }
        ensures there { is_given self.new.words block ≡ true }
        ensures others { (b : ℕ) → (b ≢ block) → is_given self.new.words b ≡ is_given self.old.words b }
    {
        self.words[usize::from(block / 64)] |= 1 << (block % 64);
    }

    // Notes that the block is not given.
    pub fn remove(&mut self, block: u16)
        ensures there { is_given self.new.words block ≡ false }
        ensures others { (b : ℕ) → (b ≢ block) → is_given self.new.words b ≡ is_given self.old.words b }
    {
        if self.has(block) {
            self.words[usize::from(block / 64)] ^= 1 << (block % 64);
        }
    }

    // The lowest block of these, from one to before the other, that is not given.
    pub fn lowest_out(&self, from: u16, end: u16) -> Option<u16>
        ensures { result ≡ first (is_out self.now.words) (range from (end - from)) }
    {
        (from..end).find(|block| !self.has(*block))
    }
}
