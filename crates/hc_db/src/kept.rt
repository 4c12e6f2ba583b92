//! What the lock of a database keeps.
ghost use Rattle.hc_dbstate.specs.History.{log};

use hc_dbstate::{DbState, Entered};
use hc_turn::Logged;

/// The entries and turns, as a lock keeps them. Its log has each turn with the form of its entry.
#[derive(Drop)]
pub struct Kept {
    pub state: DbState,
}

impl Logged for Kept {
    type Item = Entered;

    ghost log = { λ kept. log kept.state };
}
