// The lines of a text, one after another, each with the place where it begins.
ghost use Rattle.std.specs.Prelude.{◌≡◌, ◌-◌, ◌≤◌, length};
ghost use Rattle.std.specs.Iterator.{at_most};
ghost use Rattle.text.specs.Lines.{line_length, StepsLine};

fn line_length(text: &[u8]) -> usize
    ensures is { result ≡ line_length text.now }
    ensures within { result ≤ length text.now }
{
    text.iter()
        .position(|byte| *byte == b'\n')
        .unwrap_or(text.len())
}

#[derive(Debug, Drop)]
pub struct Lines<'a> {
    text: &'a [u8],
    at: usize,
    ghost within: { at ≤ length text.now },
}

impl<'a> Lines<'a> {
    // The lines of `text`, from its first on.
    pub fn new(text: &'a [u8]) -> Lines<'a>
        ensures { (result.text.now ≡ text.now) × (result.at ≡ 0) }
    {
        Lines { text, at: 0 }
    }

    // Where the next line begins.
    pub fn at(&self) -> usize
        ensures { result ≡ self.now.at }
    {
        self.at
    }
}

impl<'a> Iterator for Lines<'a> {
    // where a line begins, and the line without its line feed
    type Item = (usize, &'a [u8]);

    ghost next_gives = { λ s line t. (t.text.now ≡ s.text.now) × StepsLine s.text.now s.at line t.at };

    ghost remaining = { λ s. at_most (length s.text.now - s.at) };

    fn next(&mut self) -> Option<(usize, &'a [u8])> {
        let begin = self.at;
        let rest = &self.text[begin..];
        if rest.is_empty() {
            return None;
        }
        let length = line_length(rest);
        self.at += (length + 1).min(rest.len());
        Some((begin, &rest[..length]))
    }
}
