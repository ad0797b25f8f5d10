// The laws of settings and blocks: each function's contract is a theorem about the definitions.
ghost use Rattle.blocks.specs.Ports.{FirstOrFurther, OneSubscriber, PortsArePlaces};
ghost use Rattle.blocks.specs.Settings.{SettingsReadBack};

// Settings that are written are read as the same, and the other way round.
pub fn settings_read_back()
    ensures { SettingsReadBack }
{}

// All 64,512 ports have their places in the blocks, and each place has its port.
pub fn ports_are_places()
    ensures { PortsArePlaces }
{}

// No two subscribers share an address or a first block, and the external address is nobody's.
pub fn one_subscriber()
    ensures { OneSubscriber }
{}

// First blocks and further blocks are apart, and together all.
pub fn first_or_further()
    ensures { FirstOrFurther }
{}
