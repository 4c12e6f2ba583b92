//! Canonical forms: circuits numbered by a walk from their outputs, so that isomorphic circuits become equal.
#![tactic(auto)]

mod canon_form;
mod equal;
mod form;
mod hashing;
mod laws;
mod layout;
mod numbers;
mod renumber;

pub use canon_form::canon;
pub use equal::same;
pub use form::{EntryId, Form, hash};
pub use laws::{
    canonical_forms_are_single, canonical_forms_exist, equal_forms_have_equal_hashes,
    forms_decide_isomorphism, same_is_an_equivalence,
};
pub use numbers::Numbers;
pub use renumber::{Renumber, new_ids, ports_copy};
