// Numbers in a slice of bytes, high byte first.
// A function for each width: a trait over the widths would hold the same bodies, one in an `impl` for each, and one function
// over the count of bytes would save no more than the places that each of these names.
ghost use Rattle.std.specs.Prelude.{◌≡◌, ◌+◌, ◌<◌, length};
ghost use Rattle.sums.specs.Words.{long_at, put_long, put_word, word_at};

// The 16-bit number at `at`.
pub fn word_at(bytes: &[u8], at: usize) -> u16
    requires { at + 1 < length bytes.now }
    ensures { result ≡ word_at bytes.now at }
{
    u16::from_be_bytes([bytes[at], bytes[at + 1]])
}

// The 32-bit number at `at`.
pub fn long_at(bytes: &[u8], at: usize) -> u32
    requires { at + 3 < length bytes.now }
    ensures { result ≡ long_at bytes.now at }
{
    u32::from_be_bytes([bytes[at], bytes[at + 1], bytes[at + 2], bytes[at + 3]])
}

// Puts a 16-bit number at `at`.
pub fn put_word(bytes: &mut [u8], at: usize, word: u16)
    requires { at + 1 < length bytes.old }
    ensures { bytes.new ≡ put_word bytes.old at word }
{
    let [high, low] = word.to_be_bytes();
    bytes[at] = high;
    bytes[at + 1] = low;
}

// Puts a 32-bit number at `at`.
pub fn put_long(bytes: &mut [u8], at: usize, long: u32)
    requires { at + 3 < length bytes.old }
    ensures { bytes.new ≡ put_long bytes.old at long }
{
    put_word(bytes, at, (long / 65536) as u16);
    put_word(bytes, at + 2, (long % 65536) as u16);
}
