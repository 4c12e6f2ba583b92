ghost use Rattle.std.specs.Prelude.{◌≡◌, ◌≤◌, [], ◌∷◌, ◌++◌, None, drop, length, reverse, OnErr, OnOk};
ghost use Rattle.std.specs.Map.{lookup};
ghost use Rattle.std.specs.Str.{bytes_eq};
ghost use Rattle.hc_num.specs.Value.{look_up};

use hc_fault::{Name, NoMemory};
use indexmap::IndexMap;
use std::alloc::Global;
use std::marker::Model;

/// The most bindings that are searched one by one before others go to the table.
const MOST_FIRST: usize = 32;

/// Names and their numbers: parameters and loop variables. A later binding hides an earlier one of its name. Contracts
/// see the list of bindings, the latest first.
///
/// Past the first 32, names are found by a table, up to the first that stands there already: that one and those after it
/// are searched one by one again. In a body these are loop variables, at most 64.
#[derive(Drop)]
pub struct Env {
    first: Vec<(Name, i64)>,
    table: IndexMap<Name, i64>,
    after: Vec<(Name, i64)>,
}

impl Model for Env {
    ghost use Rattle.std.specs.Prelude.{reverse, ◌++◌};
    ghost use Rattle.hc_num.specs.Value.{Bindings};

    ghost Value = { Bindings };

    ghost view = { λ env. reverse env.after.items ++ (reverse env.table.entries ++ reverse env.first.items) };
}

impl Env {
    /// No bindings.
    pub fn new(alloc: Global) -> Env
        ensures { result ≡ [] }
    {
        Env {
            first: Vec::new(alloc),
            table: IndexMap::new(alloc),
            after: Vec::new(alloc),
        }
    }

    /// Binds a name to a value, and hides what the name meant before. A refused binding changes nothing.
    pub fn bind(&mut self, name: &Name, value: i64) -> Result<(), NoMemory>
        ensures ok { OnOk result (self.new ≡ (name.now, value) ∷ self.old) }
        ensures same { OnErr result (self.new ≡ self.old) }
    {
        let name = Name::new(*self.first.allocator(), name.bytes())?;
        if !self.after.is_empty() || self.table.contains_key(&name) {
            self.after.push((name, value))?;
        } else if self.table.len() == 0 && self.first.len() < MOST_FIRST {
            self.first.push((name, value))?;
        } else {
            add(&mut self.table, name, value)?;
        }
        Ok(())
    }

    /// Takes the last binding off.
    pub fn unbind(&mut self)
        requires { 1 ≤ length self.old }
        ensures { self.new ≡ drop 1 self.old }
    {
        if self.after.pop().is_none() && self.table.pop().is_none() {
            let _ = self.first.pop();
        }
    }

    /// The number that a name means.
    #[tactic(auto, using(crate::proofs::Found::look_up_both))]
    pub(crate) fn get(&self, name: &Name) -> Option<i64>
        ensures { result ≡ look_up name.now self.now }
    {
        match last_of(self.after.as_slice(), name) {
            Some(value) => Some(value),
            None => older(self.first.as_slice(), &self.table, name),
        }
    }
}

/// The number of the last binding of a name.
fn last_of(bindings: &[(Name, i64)], name: &Name) -> Option<i64>
    ensures { result ≡ look_up name.now (reverse bindings.now) }
{
    bindings
        .iter()
        .rev()
        .find(|binding| binding.0 == *name)
        .map(|binding| binding.1)
}

/// The number of a name in the table.
#[tactic(auto, using(crate::proofs::Found::found_last))]
fn in_table(table: &IndexMap<Name, i64>, name: &Name) -> Option<i64>
    ensures { result ≡ look_up name.now (reverse table.now.entries) }
{
    if table.len() == 0 {
        return None;
    }
    table.get(name).copied()
}

/// The number of the last binding of a name, in the table or else before it.
#[tactic(auto, using(crate::proofs::Found::look_up_both))]
fn older(first: &[(Name, i64)], table: &IndexMap<Name, i64>, name: &Name) -> Option<i64>
    ensures { result ≡ look_up name.now (reverse table.now.entries ++ reverse first.now) }
{
    match in_table(table, name) {
        Some(value) => Some(value),
        None => last_of(first, name),
    }
}

/// Adds a name that the table does not have. After a refusal nothing has changed.
#[tactic(auto, using(crate::proofs::Found::added))]
fn add(table: &mut IndexMap<Name, i64>, name: Name, value: i64) -> Result<(), NoMemory>
    requires { lookup (bytes_eq name) table.old.entries ≡ None }
    ensures ok { OnOk result (table.new.entries ≡ table.old.entries ++ (name, value) ∷ []) }
    ensures same { OnErr result (table.new.entries ≡ table.old.entries) }
{
    table.insert(name, value)?;
    Ok(())
}
