// The mode of whole output.
ghost use Rattle.whole.specs.Mode.{Reads};

use crate::{EVEN, UPWARD};
use plan::Refusal;

// Where a half goes: to the even neighbour, or upward.
#[derive(Clone, Copy, Debug, PartialEq, Eq)]
pub(crate) enum Rounding {
    Even,
    Upward,
}

impl TryFrom<u64> for Rounding {
    type Error = Refusal;

    ghost try_from_gives = { Reads };

    // Row 21.
    fn try_from(mode: u64) -> Result<Rounding, Refusal> {
        match mode {
            EVEN => Ok(Rounding::Even),
            UPWARD => Ok(Rounding::Upward),
            _ => Err(Refusal::Mode),
        }
    }
}
