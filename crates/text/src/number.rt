// Plain decimal numbers: digits alone, with no sign and no needless zero in front.
ghost use Rattle.std.specs.Prelude.{◌≡◌, ◌^◌, ◌<◌, decimal};
ghost use Rattle.text.specs.Reading.{ReadsAs, ReadsBefore, IsBelow, is_plain};

fn is_plain(digits: &[u8]) -> bool
    ensures { result ≡ is_plain digits.now }
{
    match digits {
        [] => false,
        [b'+', ..] => false,
        [b'0', _, ..] => false,
        _ => true,
    }
}

pub fn number(text: &str) -> Option<u64>
    ensures { ReadsAs decimal (IsBelow (2 ^ 64)) text.now result }
{
    if !is_plain(text.as_bytes()) {
        return None;
    }
    text.parse().ok()
}

// The number before the first `separator`, and the text behind it.
pub(crate) fn number_before<'a>(text: &'a str, separator: char) -> Option<(u64, &'a str)>
    requires { separator < 48 }
    ensures { ReadsBefore decimal (IsBelow (2 ^ 64)) separator text.now result }
{
    let (front, rest) = text.split_once(separator)?;
    Some((number(front)?, rest))
}
