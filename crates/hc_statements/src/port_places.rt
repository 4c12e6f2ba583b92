//! Ports by their names.
ghost use Rattle.std.specs.Prelude.{◌≡◌, ◌<◌, [], None, Some, length, position, IfOk, IfSome, OnErr, OnOk};
ghost use Rattle.std.specs.Option.{ForSome, option_or};
ghost use Rattle.std.specs.Map.{lookup};
ghost use Rattle.std.specs.Str.{bytes_eq};
ghost use Rattle.hc_unfold.specs.Outputs.{port_place};
ghost use Rattle.hc_statements.specs.PortPlaces.{ArePlaces, IsWith};

use hc_fault::{Name, NoMemory};
use hc_signal::Port;
use hc_unfold::port_place;
use indexmap::IndexMap;
use std::alloc::Global;

/// The places of ports by their names.
pub(crate) type Places = IndexMap<Name, usize>;

/// Adds the place of a name, where the table has none.
#[tactic(auto, using(crate::proofs::PortTables::place_added, crate::proofs::PortTables::place_there))]
fn add_place(alloc: Global, places: &mut Places, name: &Name, at: usize) -> Result<(), NoMemory>
    ensures { OnOk result (IsWith name.now at places.old.entries places.new.entries) }
{
    if places.contains_key(name) {
        return Ok(());
    }
    let name = Name::new(alloc, name.bytes())?;
    places.insert(name, at)?;
    Ok(())
}

/// The places of ports: of those that share a name, that of the first.
#[tactic(auto, using(crate::proofs::PortTables::before_more, crate::proofs::PortTables::all_placed))]
fn places_of(alloc: Global, ports: &[Port]) -> Result<Places, NoMemory>
    ensures { IfOk result (λ places. ArePlaces ports.now places.entries) }
{
    let mut places = IndexMap::new(alloc);
    'ports: for (at, port) in ports.iter().enumerate() {
        add_place(alloc, &mut places, &port.name, at)?;
    }
    Ok(places)
}

/// The most ports that are searched one by one.
const MOST_SEARCHED: usize = 32;

/// The places of ports, where they are many.
pub(crate) fn places_of_many(alloc: Global, ports: &[Port]) -> Result<Option<Places>, NoMemory>
    ensures { IfOk result (λ places. ForSome places (λ table. ArePlaces ports.now table.entries)) }
{
    if ports.len() <= MOST_SEARCHED {
        return Ok(None);
    }
    let places = places_of(alloc, ports)?;
    Ok(Some(places))
}

/// The place of a name in a table.
#[tactic(auto, using(crate::proofs::PortTables::place_within))]
fn place_of(ports: &[Port], places: &Places, name: &Name) -> Option<usize>
    requires { ArePlaces ports.now places.now.entries }
    ensures place { result ≡ port_place name.now ports.now }
    ensures within { IfSome result (λ k. k < length ports.now) }
{
    places.get(name).copied()
}

/// The place of the port of this name, by the table where there is one.
pub(crate) fn place_in(ports: &[Port], places: &Option<Places>, name: &Name) -> Option<usize>
    requires { ForSome places.now (λ table. ArePlaces ports.now table.entries) }
    ensures place { result ≡ port_place name.now ports.now }
    ensures within { IfSome result (λ k. k < length ports.now) }
{
    match places {
        Some(places) => place_of(ports, places, name),
        None => port_place(ports, name),
    }
}
