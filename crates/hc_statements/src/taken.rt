ghost use Rattle.std.specs.Prelude.{◌≡◌, ◌++◌, ◌∷◌, [], true, false, not, IfOk, OnOk};
ghost use Rattle.hc_statements.specs.PortWidths.{is_among};

use hc_fault::{Name, NoMemory};
use indexmap::IndexSet;
use std::alloc::Global;
use std::marker::Model;

/// Names that are taken, in the order in which they came.
#[derive(Drop)]
pub(crate) struct Taken {
    names: IndexSet<Name>,
}

impl Model for Taken {
    ghost use Rattle.std.specs.Prelude.{List, ℕ};

    ghost Value = { List (List ℕ) };

    ghost view = { λ taken. taken.names.keys };
}

impl Taken {
    /// No names.
    pub(crate) fn new(alloc: Global) -> Taken
        ensures { result ≡ [] }
    {
        Taken {
            names: IndexSet::new(alloc),
        }
    }

    /// Takes a name: false where it was taken before.
    pub(crate) fn add(&mut self, alloc: Global, name: &Name) -> Result<bool, NoMemory>
        ensures new { IfOk result (λ r. r ≡ not (is_among name.now self.old)) }
        ensures added { IfOk result (λ r. r ≡ true → self.new ≡ self.old ++ name.now ∷ []) }
    {
        let name = Name::new(alloc, name.bytes())?;
        let new = self.names.insert(name)?;
        Ok(new)
    }
}
