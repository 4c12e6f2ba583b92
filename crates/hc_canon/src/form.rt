ghost use Rattle.std.specs.Prelude.{◌≡◌};
ghost use Rattle.hc_canon.specs.FormView.{IsForm};
ghost use Rattle.hc_canon.specs.Hashing.{hash_of};

use crate::hashing::hash_parts;
use hc_fault::ItemList;
use hc_signal::Circuit;
use std::marker::Model;

/// A place among the entries of a database, from 0.
#[derive(Clone, Copy, Debug, PartialEq, Eq, Hash)]
pub struct EntryId(pub usize);

/// A circuit in the canonical numbering, with the entry of each of its instances in order. It has an output, at most 128
/// inputs and 128 outputs, and a driver for each wire that its outputs reach. Its hash is computed once, where it is made.
#[derive(Drop)]
pub struct Form {
    circuit: Circuit,
    kids: ItemList<EntryId>,
    hash: u64,
}

impl Model for Form {
    ghost use Rattle.std.specs.Prelude.{◌≡◌};
    ghost use Rattle.hc_canon.specs.FormView.{FormView, IsForm};
    ghost use Rattle.hc_canon.specs.Hashing.{hash_of};

    ghost Value = { FormView };

    ghost view = { λ form. record { circuit = form.circuit; kids = form.kids } };

    ghost invariant = { λ form. IsForm (record { circuit = form.circuit; kids = form.kids }) × (form.hash ≡ hash_of (record { circuit = form.circuit; kids = form.kids })) };
}

impl Form {
    /// Each form is canonical and keeps the rules of a checked circuit.
    pub fn canonical(&self)
        ensures { IsForm self.now }
    {
        let _ = &self.circuit;
    }

    /// The form of these parts.
    pub(crate) fn of_parts(circuit: Circuit, kids: ItemList<EntryId>) -> Form
        requires { IsForm (record { circuit = circuit; kids = kids }) }
        ensures { result ≡ record { circuit = circuit; kids = kids } }
    {
        let hash = hash_parts(&circuit, kids.as_slice());
        Form {
            circuit,
            kids,
            hash,
        }
    }

    /// The circuit.
    pub fn circuit(&self) -> &Circuit
        ensures { result.now ≡ self.now.circuit }
    {
        &self.circuit
    }

    /// The entry of each instance, in the order of the instances.
    pub fn kids(&self) -> &[EntryId]
        ensures { result.now ≡ self.now.kids }
    {
        self.kids.as_slice()
    }
}

/// A hash of 64 bits. Equal forms have equal hashes.
pub fn hash(form: &Form) -> u64
    ensures { result ≡ hash_of form.now }
{
    form.hash
}
