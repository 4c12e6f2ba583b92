use crate::tree::CircuitText;
use hc_fault::{ItemList, Name};
use indexmap::IndexMap;
use std::marker::Model;

/// The circuits of a design, seen by contracts as their list. A table has the place of each name.
#[derive(Drop)]
pub struct Circuits {
    pub(crate) items: ItemList<CircuitText>,
    pub(crate) places: IndexMap<Name, usize>,
}

impl Model for Circuits {
    ghost use Rattle.std.specs.Prelude.{List};
    ghost use Rattle.hc_lang.specs.declared.tree.CircuitText.{CircuitText};
    ghost use Rattle.std.specs.Coded.{coded_list};
    ghost use Rattle.hc_lang.specs.contracts.tree.CircuitText.{the_row};
    ghost use Rattle.hc_lang.specs.CircuitPlaces.{ArePlaces};

    ghost Value = { List CircuitText };

    ghost coded = { coded_list the_row.coded };

    ghost view = { λ circuits. circuits.items };

    ghost invariant = { λ circuits. ArePlaces circuits.items circuits.places.entries };
}
