use hc_fault::{FaultKind, NoMemory};

/// Why a text is not read: its first fault with the line, or want of memory.
#[derive(Clone, Copy, Debug, PartialEq, Eq, Drop)]
pub enum TextStop {
    Fault(FaultKind, u32),
    Memory,
}

impl From<NoMemory> for TextStop {
    ghost use Rattle.std.specs.Prelude.{◌≡◌};
    ghost use Rattle.hc_lang.specs.declared.text_stop.TextStop.TheVariants.{Memory};

    ghost from_gives = { λ _ e. e ≡ Memory };

    fn from(_: NoMemory) -> TextStop {
        TextStop::Memory
    }
}

/// The item that could not be added is let go.
impl<T: Drop> From<(T, NoMemory)> for TextStop {
    ghost use Rattle.std.specs.Prelude.{◌≡◌};
    ghost use Rattle.hc_lang.specs.declared.text_stop.TextStop.TheVariants.{Memory};

    ghost from_gives = { λ _ e. e ≡ Memory };

    fn from(_: (T, NoMemory)) -> TextStop {
        TextStop::Memory
    }
}
