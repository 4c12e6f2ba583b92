ghost use Rattle.std.specs.Prelude.{◌≡◌, ◌≢◌, ◌<◌, ◌≤◌, ◌++◌, ◌∷◌, [], All, IfErr, IfOk, IsTrue, ◌↔◌, MatchOption, OnErr, OnOk, Some, if◌then◌else◌, length, nat_eq, slice_get, ℕ};
ghost use Rattle.hc_canon.specs.Hashing.{hash_of};
ghost use Rattle.hc_canon.specs.declared.form.EntryId.{EntryId};
ghost use Rattle.hc_dbstate.specs.Insertion.{IsInserted};
ghost use Rattle.hc_dbstate.specs.Places.{IsIndexOf, low_bits, places_at};
ghost use Rattle.hc_signal.specs.Member.{Has};

use crate::database::DbState;
use crate::turns::Turn;
use hc_canon::{EntryId, Form, hash, same};
use hc_fault::NoMemory;
use indexmap::IndexMap;
use std::alloc::Global;

/// Whether the form stands at this place.
fn stands_at(entries: &[Form], place: usize, form: &Form) -> bool
    ensures { IsTrue result ↔ (slice_get entries.now place ≡ Some form.now) }
{
    match entries.get(place) {
        Some(entry) => same(entry, form),
        None => false,
    }
}

/// The first of these places where the form stands.
fn find(entries: &[Form], places: &[usize], form: &Form) -> Option<usize>
    ensures { MatchOption result (All (λ p. slice_get entries.now p ≢ Some form.now) places.now) (λ k. slice_get entries.now k ≡ Some form.now) }
{
    'places: for place in places {
        if stands_at(entries, *place, form) {
            return Some(*place);
        }
    }
    None
}

/// So many low bits of a hash.
fn low_bits(bits: u32, hash: u64) -> u64
    requires { bits ≤ 64 }
    ensures { result ≡ low_bits bits hash }
{
    if bits < 64 { hash % (1 << bits) } else { hash }
}

/// The place of the entry that is equal to the form.
fn place_of(
    entries: &[Form],
    bits: u32,
    places: &IndexMap<u64, Vec<usize>>,
    hash: u64,
    form: &Form,
) -> Option<usize>
    requires bits { bits ≤ 64 }
    requires index { IsIndexOf bits places.now entries.now }
    requires hash { hash ≡ hash_of form.now }
    ensures { MatchOption result ((k : ℕ) → slice_get entries.now k ≢ Some form.now) (λ k. slice_get entries.now k ≡ Some form.now) }
{
    match places.get(&low_bits(bits, hash)) {
        Some(listed) => find(entries, listed.as_slice(), form),
        None => None,
    }
}

/// Lists one more place for this key. After a refusal nothing has changed.
fn note(
    alloc: Global,
    places: &mut IndexMap<u64, Vec<usize>>,
    key: u64,
    place: usize,
) -> Result<(), NoMemory>
    ensures ok { OnOk result ((k : ℕ) → places_at places.new k ≡ (if nat_eq key k then places_at places.old k ++ place ∷ [] else places_at places.old k)) }
    ensures err { OnErr result ((k : ℕ) → places_at places.new k ≡ places_at places.old k) }
{
    match places.get_mut(&key) {
        Some(listed) => match listed.push(place) {
            Ok(()) => Ok(()),
            Err(_) => Err(NoMemory),
        },
        None => {
            let mut listed = Vec::new(alloc);
            if listed.push(place).is_err() {
                return Err(NoMemory);
            }
            match places.insert(key, listed) {
                Ok(_) => Ok(()),
                Err(_) => Err(NoMemory),
            }
        }
    }
}

impl DbState {
    /// Takes one turn: the answer is the entry that is equal to the form, or else the next place, where the form then
    /// stands. It is refused only for want of memory; then the form comes back, and nothing has changed.
    pub fn insert(&mut self, form: Form) -> Result<EntryId, (Form, NoMemory)>
        requires kids { (id : EntryId) → Has form.kids id → id.0 < length self.old.entries }
        ensures ok { IfOk result (λ id. IsInserted self.old self.new form id) }
        ensures same { OnErr result (self.new ≡ self.old) }
        ensures back { IfErr result (λ refused. refused.0 ≡ form) }
    {
        form.canonical();
        if self.turns.reserve(1).is_err() || self.entries.reserve(1).is_err() {
            return Err((form, NoMemory));
        }
        let bits = self.bits;
        let hash = hash(&form);
        match place_of(self.entries.as_slice(), bits, &self.places, hash, &form) {
            Some(k) => {
                self.turns.push_reserved(Turn {
                    entry: EntryId(k),
                    fresh: false,
                });
                Ok(EntryId(k))
            }
            None => {
                let place = self.entries.len();
                let alloc = *self.entries.allocator();
                match note(alloc, &mut self.places, low_bits(bits, hash), place) {
                    Ok(()) => {}
                    Err(e) => return Err((form, e)),
                }
                self.entries.push_reserved(form);
                self.turns.push_reserved(Turn {
                    entry: EntryId(place),
                    fresh: true,
                });
                Ok(EntryId(place))
            }
        }
    }
}
