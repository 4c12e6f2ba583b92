ghost use Rattle.std.specs.Prelude.{◌≡◌, ◌^◌, ◌<◌, ◌++◌, ◌∷◌, [], ℕ, List, None, IfOk, OnOk, OnErr};
ghost use Rattle.std.specs.Map.{keys_of, lookup, set_value};
ghost use Rattle.std.specs.Str.{bytes_eq};
ghost use Rattle.hc_names.specs.Mangling.{IsMangled, numbered};
ghost use Rattle.hc_names.specs.Numbers.{AreGivenBelow, AreNumbered};

use hc_fault::{Name, NoMemory};
use indexmap::IndexMap;
use itoa::Buffer;
use std::alloc::Global;
use std::marker::Model;

/// The names that were given so far, seen by contracts as their list.
#[derive(Drop)]
pub struct Used {
    alloc: Global,
    /// Each name with a number: the names with lower numbers were given too.
    names: IndexMap<Name, usize>,
}

impl Model for Used {
    ghost use Rattle.std.specs.Prelude.{ℕ, List};
    ghost use Rattle.std.specs.Map.{keys_of};
    ghost use Rattle.hc_names.specs.Numbers.{AreNumbered};

    ghost Value = { List (List ℕ) };

    ghost view = { λ used. keys_of used.names.entries };

    ghost invariant = { λ used. AreNumbered used.names.entries };
}

impl Used {
    /// No name yet.
    pub fn new(alloc: Global) -> Used
        ensures { result ≡ [] }
    {
        Used {
            alloc,
            names: IndexMap::new(alloc),
        }
    }

    /// Gives the mangled name: the name itself if it is free, else the first of `name_0`, `name_1` and so on that is.
    /// After a refusal nothing has changed.
    pub fn take(&mut self, name: &Name) -> Result<Name, NoMemory>
        ensures mangled { IfOk result (IsMangled name.now self.old) }
        ensures given { IfOk result (λ given. self.new ≡ self.old ++ given ∷ []) }
        ensures same { OnErr result (self.new ≡ self.old) }
    {
        give(self.alloc, &mut self.names, name)
    }
}

/// A name has one mangled form.
pub fn names_are_single()
    ensures { (name : List ℕ) (used : List (List ℕ)) (a b : List ℕ) → IsMangled name used a → IsMangled name used b → a ≡ b }
{}

/// Gives the mangled name and adds it to the table.
fn give(alloc: Global, names: &mut IndexMap<Name, usize>, name: &Name) -> Result<Name, NoMemory>
    requires { AreNumbered names.old.entries }
    ensures numbered { AreNumbered names.new.entries }
    ensures mangled { IfOk result (IsMangled name.now (keys_of names.old.entries)) }
    ensures given { IfOk result (λ given. keys_of names.new.entries ≡ keys_of names.old.entries ++ given ∷ []) }
    ensures same { OnErr result (keys_of names.new.entries ≡ keys_of names.old.entries) }
{
    match number_of(names, name) {
        None => {
            let given = copy_of(alloc, name)?;
            add(alloc, names, &given)?;
            Ok(given)
        }
        Some(from) => {
            let (number, given) = first_free(alloc, names, name, from)?;
            add(alloc, names, &given)?;
            set_number(names, name, number + 1);
            Ok(given)
        }
    }
}

/// Adds a new name to the table. After a refusal nothing has changed.
#[tactic(auto, using(crate::proofs::Table::insert_new))]
fn add(alloc: Global, names: &mut IndexMap<Name, usize>, name: &Name) -> Result<(), NoMemory>
    requires { lookup (bytes_eq name.now) names.old.entries ≡ None }
    ensures added { OnOk result (names.new.entries ≡ names.old.entries ++ (name.now, 0) ∷ []) }
    ensures same { OnErr result (names.new.entries ≡ names.old.entries) }
{
    names.insert(copy_of(alloc, name)?, 0)?;
    Ok(())
}

/// The number of a name in the table.
fn number_of(names: &IndexMap<Name, usize>, name: &Name) -> Option<usize>
    ensures { result ≡ lookup (bytes_eq name.now) names.now.entries }
{
    names.get(name).copied()
}

/// Sets the number of a name in the table.
fn set_number(names: &mut IndexMap<Name, usize>, name: &Name, number: usize)
    ensures { names.new.entries ≡ set_value (bytes_eq name.now) names.old.entries number }
{
    if let Some(old) = names.get_mut(name) {
        *old = number;
    }
}

/// The first number from this one on with which the name is free, and the name with it.
fn first_free(
    alloc: Global,
    names: &IndexMap<Name, usize>,
    name: &Name,
    from: usize,
) -> Result<(usize, Name), NoMemory>
    requires { AreGivenBelow (keys_of names.now.entries) name.now from }
    ensures named { IfOk result (λ found. found.1 ≡ numbered name.now found.0) }
    ensures free { IfOk result (λ found. lookup (bytes_eq found.1) names.now.entries ≡ None) }
    ensures first { IfOk result (λ found. AreGivenBelow (keys_of names.now.entries) name.now found.0) }
    ensures small { IfOk result (λ found. found.0 < 2 ^ 63) }
{
    // One of these numbers is free, since there are more of them than names.
    for number in from..names.len() + 1 {
        let numbered = with_number(alloc, name, number)?;
        if number_of(names, &numbered).is_none() {
            return Ok((number, numbered));
        }
    }
    unreachable!()
}

/// The name, `_` and the number.
fn with_number(alloc: Global, name: &Name, number: usize) -> Result<Name, NoMemory>
    ensures { IfOk result (λ made. made ≡ numbered name.now number) }
{
    let mut digits = Buffer::new();
    let mut bytes = Vec::from_slice(alloc, name.bytes())?;
    bytes.push(b'_')?;
    bytes.extend_from_slice(digits.format(number).as_bytes())?;
    Name::new(alloc, bytes.as_slice())
}

/// A copy of its own memory.
fn copy_of(alloc: Global, name: &Name) -> Result<Name, NoMemory>
    ensures { IfOk result (λ copy. copy ≡ name.now) }
{
    Name::new(alloc, name.bytes())
}
