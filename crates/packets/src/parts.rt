// The two parts of a packet, or of as much of one as an error quotes.
ghost use Rattle.std.specs.Prelude.{◌≤◌, length};

use crate::places::HEADER;

// A header and the body behind it, which has at least the 8 bytes in which the ports stand.
#[derive(Clone, Copy, Debug, PartialEq, Eq)]
pub struct Parts<'a> {
    pub header: &'a [u8; HEADER],
    pub body: &'a [u8],
    pub ghost ports: { 8 ≤ length body.now },
}
