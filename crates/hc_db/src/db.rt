//! A database that threads share.
ghost use Rattle.std.specs.Prelude.{◌≡◌, [], IfOk, IfErr, OnErr, IsPermutation};
ghost use mathlib.Core.List.{IsPrefix};
ghost use Rattle.hc_turn.specs.Views.{ArePrefixesOf, places_of, whole};
ghost use Rattle.hc_turn.specs.Passes.{known, seen, mine, share, kept, HoldsNothing, IsOf};
ghost use Rattle.hc_dbstate.specs.History.{log};
ghost use Rattle.hc_db.specs.Database.{lock_of};
ghost use Rattle.hc_db.specs.Inserting.{KnowsKids, Inserts, InsertsNothing};

use crate::kept::Kept;
use crate::laws::known_entries_are_there;
use hc_canon::{EntryId, Form};
use hc_dbstate::DbState;
use hc_fault::NoMemory;
use hc_turn::TurnLock;
use std::alloc::Global;
use std::sync::Wait;

/// The right of one thread to insert, with the turns that it has seen and the places of its own turns.
pub type Pass = hc_turn::Pass<Kept>;

/// Entries and turns under a turn lock, for threads to share. Each insertion is one turn.
#[derive(Drop)]
pub struct Db {
    lock: TurnLock<Kept>,
}

impl Db {
    /// A database with no entry and no turn, and its first pass, which has all 64 shares. It is refused only for want of
    /// memory. It may wait, as the making of a lock may.
    pub fn new<R: Wait>(rt: &R, alloc: Global) -> Result<(Db, Pass), NoMemory>
        ensures lock { IfOk result (λ made. IsOf (lock_of made.0) made.1) }
        ensures pass { IfOk result (λ made. known made.1 ≡ whole []) }
    {
        let state = DbState::new(alloc);
        match TurnLock::new(rt, alloc, Kept { state }) {
            Ok((lock, pass)) => Ok((Db { lock }, pass)),
            Err((_, refused)) => Err(refused),
        }
    }

    /// Takes a turn, in which it inserts the form, and answers the entry that is equal to it, or else the next place, where
    /// the form then stands. The log that the pass has then seen begins with all that it had seen or kept, and ends with this
    /// insertion, whose place is the pass's own. It may wait for another pass to give the turn back.
    ///
    /// It is refused only for want of memory. Then the form comes back and the call adds no turn, but the pass has seen the log.
    ///
    /// A pass with all 64 shares owns each place of the log that it has then seen.
    pub fn insert<R: Wait>(
        &self,
        rt: &R,
        pass: &mut Pass,
        form: Form,
    ) -> Result<EntryId, (Form, NoMemory)>
        requires lock { IsOf (lock_of self.now) pass.old }
        requires free { HoldsNothing pass.old }
        requires kids { KnowsKids (known pass.old) form }
        ensures lock { IsOf (lock_of self.now) pass.new }
        ensures free { HoldsNothing pass.new }
        ensures share { share pass.new ≡ share pass.old }
        ensures seen { IsPrefix (seen pass.old) (seen pass.new) × ArePrefixesOf (seen pass.new) (kept pass.old) }
        ensures all { share pass.old ≡ 64 → IsPermutation (places_of (seen pass.new)) (mine pass.new) }
        ensures ok { IfOk result (λ id. Inserts (known pass.old) form id (known pass.new)) }
        ensures err { OnErr result (InsertsNothing (known pass.old) (known pass.new)) }
        ensures back { IfErr result (λ refused. refused.0 ≡ form) }
    {
        let Kept { mut state } = self.lock.enter(rt, pass);
        state.legal();
        known_entries_are_there();
        let answer = state.insert(form);
        state.legal();
        self.lock.leave(rt, Kept { state }, pass);
        answer
    }

    /// The entries and turns. The log begins with all that the pass had seen or kept, and with all 64 shares the pass owns each
    /// place of it. It may wait for another pass to give the turn back.
    pub fn finish<R: Wait>(self, rt: &R, pass: Pass) -> DbState
        requires lock { IsOf (lock_of self) pass }
        requires free { HoldsNothing pass }
        ensures seen { IsPrefix (seen pass) (log result) }
        ensures kept { ArePrefixesOf (log result) (kept pass) }
        ensures all { share pass ≡ 64 → IsPermutation (places_of (log result)) (mine pass) }
    {
        self.lock.finish(rt, pass).state
    }

    /// The lock of the database's passes, to split and join them.
    pub fn lock(&self) -> &TurnLock<Kept>
        ensures { result.now ≡ lock_of self.now }
    {
        &self.lock
    }
}
