// What the tests read: a book of eight subscribers with two further blocks each.
use blocks::settings::Settings;
use book::book::Book;
use book::reading::Fault;
use std::alloc::Global;
use std::test::Fail;

// Where the reading of these bytes stops, and why.
pub(crate) fn fault_in(heap: Global, bytes: &[u8]) -> Result<Option<Fault>, Fail> {
    let Ok(settings) = Settings::new(0xcb00_7101, 0x0a00_0000, 8, 16, 2, 120, 60) else {
        return Err(Fail::new("settings"));
    };
    let book = Book::read(heap, &settings, bytes)?;
    Ok(book.fault())
}
