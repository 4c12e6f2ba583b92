//! The circuits of a design by their names.
ghost use Rattle.std.specs.Prelude.{◌≡◌, ◌<◌, [], None, Some, length, IfOk, IfSome, OnErr, OnOk};
ghost use Rattle.std.specs.Option.{option_or};
ghost use Rattle.std.specs.Map.{lookup};
ghost use Rattle.std.specs.Str.{bytes_eq};
ghost use Rattle.hc_lang.specs.CircuitPlaces.{ArePlaces, IsWith, circuit_place};

use crate::circuits::Circuits;
use crate::tree::CircuitText;
use hc_fault::{ItemList, Name, NoMemory};
use indexmap::IndexMap;
use std::alloc::Global;

/// Adds the place of a name, where the table has none.
#[tactic(auto, using(crate::proofs::CircuitTables::place_added, crate::proofs::CircuitTables::place_there))]
fn add_place(
    alloc: Global,
    places: &mut IndexMap<Name, usize>,
    name: &Name,
    at: usize,
) -> Result<(), NoMemory>
    ensures { OnOk result (IsWith name.now at places.old.entries places.new.entries) }
{
    if places.contains_key(name) {
        return Ok(());
    }
    let name = Name::new(alloc, name.bytes())?;
    places.insert(name, at)?;
    Ok(())
}

/// The places of circuits: of those that share a name, that of the first.
#[tactic(auto, using(crate::proofs::CircuitTables::before_more, crate::proofs::CircuitTables::all_placed))]
fn places_of(alloc: Global, circuits: &[CircuitText]) -> Result<IndexMap<Name, usize>, NoMemory>
    ensures { IfOk result (λ places. ArePlaces circuits.now places.entries) }
{
    let mut places = IndexMap::new(alloc);
    'circuits: for (at, circuit) in circuits.iter().enumerate() {
        add_place(alloc, &mut places, &circuit.name, at)?;
    }
    Ok(places)
}

/// Circuits with the table of their places.
pub(crate) fn placed(alloc: Global, items: ItemList<CircuitText>) -> Result<Circuits, NoMemory>
    ensures { IfOk result (λ circuits. circuits ≡ items) }
{
    let places = places_of(alloc, items.as_slice())?;
    Ok(Circuits { items, places })
}

impl Circuits {
    /// The circuits in the order of the text.
    pub fn as_slice(&self) -> &[CircuitText]
        ensures { result.now ≡ self.now }
    {
        self.items.as_slice()
    }

    /// The place of the circuit of this name, of the first where two have it.
    #[tactic(auto, using(crate::proofs::CircuitTables::place_within))]
    pub fn place(&self, name: &Name) -> Option<usize>
        ensures place { result ≡ circuit_place name.now self.now }
        ensures within { IfSome result (λ k. k < length self.now) }
    {
        self.places.get(name).copied()
    }
}
