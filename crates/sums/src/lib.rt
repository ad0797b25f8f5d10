// Internet sums: 16-bit words added in 32 bits and folded, checked, and moved by what changed.
#![tactic(auto)]

ghost use Rattle.std.specs.Prelude.{◌≡◌, ◌^◌, ◌<◌, ◌≤◌, length};
ghost use Rattle.sums.specs.Sums.{moved, ones, right};
ghost use Rattle.sums.specs.Words.{word_sum};

pub mod laws;
pub mod words;

// The plain sum of the words of `bytes`, which are few enough that it fits.
#[tactic(auto, unfolding(crate::specs::Words::word_sum))]
pub fn word_sum(bytes: &[u8]) -> u32
    requires { length bytes.now ≤ 65535 }
    ensures is { result ≡ word_sum bytes.now }
    ensures small { result < 2 ^ 31 }
{
    let mut sum: u32 = 0;
    let mut rest = bytes;
    while let [high, low, behind @ ..] = rest {
        sum += u32::from(u16::from_be_bytes([*high, *low]));
        rest = behind;
    }
    if let [high] = rest {
        sum += u32::from(*high) * 256;
    }
    sum
}

// A sum of words brought into 16 bits: the carries are added until there is none.
pub fn fold(sum: u32) -> u16
    ensures { result ≡ ones sum }
{
    let once = (sum & 0xffff) + (sum >> 16);
    ((once & 0xffff) + (once >> 16)) as u16
}

// Whether words that add up to `sum`, the sum that was sent among them, were sent so.
pub fn is_right(sum: u32) -> bool
    ensures { result ≡ right sum }
{
    fold(sum) == 0xffff
}

// The sum `old` after words that add up to `gone` were replaced by words that add up to `new`.
// The added 65,535 keeps the folded number from being 0, so that the answer is never the second spelling of 0.
pub fn move_sum(old: u16, gone: u32, new: u32) -> u16
    ensures { result ≡ moved old gone new }
{
    let taken = u32::from(!old) + u32::from(!fold(gone));
    !fold(taken + u32::from(fold(new)) + 0xffff)
}
