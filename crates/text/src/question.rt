// Questions: an address and a port, and when: a moment or a tick.
ghost use Rattle.std.specs.Prelude.{◌^◌};
ghost use Rattle.text.specs.Questions.{Askable, AskableAt, asked, when_text, word_number};
ghost use Rattle.text.specs.Reading.{ReadsAs, IsBelow};

use crate::address::address;
use crate::number::{number, number_before};
use std::str::from_utf8;

// When somebody is asked for: after so many events, or in a tick.
#[derive(Clone, Copy, Debug, PartialEq, Eq)]
pub enum When {
    Moment(u64),
    Tick(u32),
}

#[derive(Clone, Copy, Debug, PartialEq, Eq)]
pub struct Question {
    pub address: u32,
    pub port: u16,
    pub when: When,
}

// The number behind `word`.
fn number_after(text: &str, word: &str) -> Option<u64>
    ensures { ReadsAs (word_number word.now) (IsBelow (2 ^ 64)) text.now result }
{
    number(text.strip_prefix(word)?)
}

fn time(text: &str) -> Option<When>
    ensures { ReadsAs when_text AskableAt text.now result }
{
    if let Some(moment) = number_after(text, "moment ") {
        return Some(When::Moment(moment));
    }
    let tick = number_after(text, "tick ")?;
    Some(When::Tick(u32::try_from(tick).ok()?))
}

impl Question {
    // The question that this text asks, if it asks one.
    pub fn read(text: &str) -> Option<Question>
        ensures { ReadsAs asked Askable text.now result }
    {
        let (front, rest) = text.split_once(' ')?;
        let address = address(front)?;
        let (port, rest) = number_before(rest, ' ')?;
        let port = u16::try_from(port).ok()?;
        let when = time(rest)?;
        Some(Question {
            address,
            port,
            when,
        })
    }

    // The same for a line of bytes, which may be no text at all.
    pub fn from_line(line: &[u8]) -> Option<Question>
        ensures { ReadsAs asked Askable line.now result }
    {
        let text = from_utf8(line).ok()?;
        Question::read(text)
    }
}
