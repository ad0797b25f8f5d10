// Where an external port lies among the blocks.

// A block, and a port's place in it, counted from 0.
#[derive(Clone, Copy, Debug, PartialEq, Eq)]
pub struct Place {
    pub block: u16,
    pub offset: u16,
}
