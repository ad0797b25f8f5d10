// count SETTINGS BOOK: prints the most further blocks given at one time, and to how many subscribers.
#![tactic(auto)]

use book::book::Book;
use shell::Trouble;
use std::process::ExitCode;
use text::report::Line;

fn main(rt: HostRuntime) -> ExitCode {
    shell::status(&rt, run(&rt))
}

fn run(rt: &HostRuntime) -> Result<(), Trouble> {
    let words = shell::arguments(rt)?;
    let [settings, file] = words.as_slice() else {
        return Err(shell::complain(rt, "usage: count SETTINGS BOOK"));
    };
    let settings = shell::settings(rt, settings.as_str())?;
    let bytes = shell::contents(rt, file.as_str())?;
    let book = Book::read(rt.alloc(), &settings, bytes.as_slice())?;
    if let Some(fault) = book.fault() {
        return Err(shell::fault(rt, file.as_str(), fault.cause, fault.byte));
    }
    let peak = book.peak();
    rt.println(Line::Count {
        blocks: peak.blocks,
        subscribers: peak.subscribers,
    })?;
    Ok(())
}
