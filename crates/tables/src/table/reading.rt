// What a table shows: its settings, its count of events, its tick, and the lines of the last event.
ghost use Rattle.tables.specs.Models.{lines_of, model};
ghost use Rattle.std.specs.Prelude.{◌≡◌};

use super::Table;
use blocks::settings::Settings;
use mappings::line::Line;

impl Table {
    // The settings that it was made from.
    pub fn settings(&self) -> Settings
        ensures { result ≡ self.now.settings }
    {
        self.settings
    }

    // How many events came before.
    pub fn moment(&self) -> u64
        ensures { result ≡ (model self.now).moment }
    {
        self.moment
    }

    // The tick that it is.
    pub fn tick(&self) -> u32
        ensures { result ≡ (model self.now).tick }
    {
        self.tick
    }

    // The lines that the last event wrote into the book.
    pub fn lines(&self) -> &[Line]
        ensures { result.now ≡ lines_of self.now }
    {
        &self.lines
    }
}
