// One record of the input.
ghost use Rattle.std.specs.Prelude.{◌≡◌, Ok, Err, nat_le, if◌then◌else◌};
ghost use Rattle.blocks.specs.declared.refusal.Refusal.TheVariants.{Malformed};
ghost use Rattle.records.specs.Records.{side_of};

use blocks::refusal::Refusal;

// The side of the gateway that a packet came from.
#[derive(Clone, Copy, Debug, PartialEq, Eq)]
pub enum Side {
    // the subscribers'
    Inside,
    // the world's
    Outside,
}

// A side as the input has it: 0 or 1.
impl TryFrom<u8> for Side {
    type Error = Refusal;

    ghost try_from_gives = { λ byte side. side ≡ (if nat_le byte 1 then Ok (side_of byte) else Err Malformed) };

    fn try_from(byte: u8) -> Result<Self, Refusal> {
        match byte {
            0 => Ok(Side::Inside),
            1 => Ok(Side::Outside),
            _ => Err(Refusal::Malformed),
        }
    }
}

#[derive(Clone, Copy, Debug, PartialEq, Eq)]
pub enum Record<'a> {
    Packet { side: Side, bytes: &'a [u8] },
    Tick,
}
