//! What the calls of this crate answer.
use hc_fault::{ItemList, NoMemory};

/// What the outputs of a circuit depend on in the same cycle: one mask for each output, in order. Bit `i` of a mask is 1
/// exactly where a path without a register and without a write port leads from the output to input `i`.
#[derive(Drop)]
pub struct Paths {
    pub masks: ItemList<u128>,
}

/// Why there are no paths or no schedule.
#[derive(Clone, Copy, Debug, PartialEq, Eq, Drop)]
pub enum PathStop {
    /// In what the outputs reach a node depends on itself in the same cycle.
    Loop,
    /// Memory ran out.
    NoMemory,
}

impl From<NoMemory> for PathStop {
    ghost use Rattle.std.specs.Prelude.{◌≡◌};
    ghost use Rattle.hc_paths.specs.declared.kinds.PathStop.TheVariants.{NoMemory};

    ghost from_gives = { λ _ stop. stop ≡ NoMemory };

    fn from(_error: NoMemory) -> PathStop {
        PathStop::NoMemory
    }
}
