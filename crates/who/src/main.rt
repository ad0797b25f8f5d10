// who SETTINGS BOOK QUESTIONS: answers, for each question, who had a port.
#![tactic(auto)]

use blocks::refusal::Refusal;
use blocks::settings::Settings;
use book::book::Book;
use book::no_answer::NoAnswer;
use shell::Trouble;
use std::process::ExitCode;
use text::lines::Lines;
use text::question::{Question, When};
use text::report::Line;

fn main(rt: HostRuntime) -> ExitCode {
    shell::status(&rt, run(&rt))
}

fn run(rt: &HostRuntime) -> Result<(), Trouble> {
    let words = shell::arguments(rt)?;
    let [settings, file, questions] = words.as_slice() else {
        return Err(shell::complain(rt, "usage: who SETTINGS BOOK QUESTIONS"));
    };
    let settings = shell::settings(rt, settings.as_str())?;
    let bytes = shell::contents(rt, file.as_str())?;
    let book = Book::read(rt.alloc(), &settings, bytes.as_slice())?;
    let text = shell::contents(rt, questions.as_str())?;
    let malformed = answer_all(rt, &settings, &book, text.as_slice())?;
    // both are named where both are faulty, the book first
    let mut trouble = None;
    if let Some(fault) = book.fault() {
        trouble = Some(shell::fault(rt, file.as_str(), fault.cause, fault.byte));
    }
    if let Some(byte) = malformed {
        trouble = Some(shell::fault(rt, questions.as_str(), Refusal::Malformed, byte));
    }
    match trouble {
        Some(trouble) => Err(trouble),
        None => Ok(()),
    }
}

// An answer for each question; where one is malformed, the byte at which its line begins.
fn answer_all(
    rt: &HostRuntime,
    settings: &Settings,
    book: &Book,
    text: &[u8],
) -> Result<Option<usize>, Trouble> {
    for (byte, line) in Lines::new(text) {
        let Some(question) = Question::from_line(line) else {
            return Ok(Some(byte));
        };
        answer(rt, settings, book, question)?;
    }
    Ok(None)
}

fn answer(
    rt: &HostRuntime,
    settings: &Settings,
    book: &Book,
    question: Question,
) -> Result<(), Trouble> {
    let Question {
        address,
        port,
        when,
    } = question;
    match when {
        When::Moment(moment) => {
            let line = match book.who_at(settings, address, port, moment) {
                Ok(holder) => Line::Holder(holder),
                Err(cause) => Line::Unknown(cause),
            };
            rt.println(line)?;
        }
        When::Tick(tick) => match book.who_in(rt.alloc(), settings, address, port, tick) {
            Ok(names) => rt.println(Line::Names(names.as_slice()))?,
            Err(NoAnswer::Fault(cause)) => rt.println(Line::Unknown(cause))?,
            Err(NoAnswer::Memory(error)) => return Err(error.into()),
        },
    }
    Ok(())
}
