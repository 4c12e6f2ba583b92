ghost use Rattle.std.specs.Prelude.{◌≡◌};
ghost use Rattle.hc_signal.specs.declared.stop.BuildStop.TheVariants as stop;

use hc_fault::{FaultKind, NoMemory};
use std::alloc::AllocError;

/// Why the builder refused a call. It is then as before the call.
#[derive(Clone, Copy, Debug, PartialEq, Eq, Drop)]
pub enum BuildStop {
    /// The first rule of the call that is broken.
    Fault(FaultKind),
    /// Memory ran out.
    NoMemory,
}

impl From<FaultKind> for BuildStop {
    ghost from_gives = { λ kind e. e ≡ stop.Fault kind };

    fn from(kind: FaultKind) -> BuildStop {
        BuildStop::Fault(kind)
    }
}

impl From<NoMemory> for BuildStop {
    ghost from_gives = { λ _ e. e ≡ stop.NoMemory };

    fn from(_error: NoMemory) -> BuildStop {
        BuildStop::NoMemory
    }
}

impl From<AllocError> for BuildStop {
    ghost from_gives = { λ _ e. e ≡ stop.NoMemory };

    fn from(_error: AllocError) -> BuildStop {
        BuildStop::NoMemory
    }
}
