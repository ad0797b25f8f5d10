// The slots of the external ports: for each port from 1,024 on the mapping that has it, live or resting.
ghost use Rattle.std.specs.Prelude.{◌≡◌, vec_len};
ghost use Rattle.blocks.specs.Config.{ports};

use crate::mapping::Mapping;

mod methods;

#[derive(Drop)]
pub struct Slots {
    of: Vec<Option<Mapping>>,
    ghost each: { vec_len of ≡ ports },
}
