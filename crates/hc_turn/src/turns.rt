//! Making a lock, taking turns, and cutting and joining passes.
ghost use Rattle.std.specs.Prelude.{◌≡◌, ◌≤◌, ◌++◌, [], ◌∷◌, IfOk, IfErr, IsPermutation};
ghost use mathlib.Core.List.{IsPrefix};
ghost use Rattle.hc_turn.specs.Views.{ArePrefixesOf, KnowsOneLog, AddsAtMostOne, places_of, whole, after_enter, after_leave, left_as_it_was, left_with, first_half, second_half, joined};
ghost use Rattle.hc_turn.specs.Passes.{known, seen, mine, share, kept, HoldsTurn, HoldsNothing, IsOf};

use crate::lock::{Pass, TurnLock};
use crate::logged::Logged;
use crate::rule::{Enter, Halves, Joined, Leave, OneLog, TurnRule};
use crate::view::View;
use crossbeam_queue::RuledArrayQueue;
use hc_fault::NoMemory;
use std::alloc::Global;
use std::sync::Wait;
use std::thread;

impl<S: Logged> TurnLock<S> {
    /// A lock over this value, and its first pass, which has seen the whole log and owns each place of it. Where there
    /// is no memory for the lock, the value comes back. It may wait, as a push to a queue may.
    pub fn new<R: Wait>(
        rt: &R,
        alloc: Global,
        state: S,
    ) -> Result<(TurnLock<S>, Pass<S>), (S, NoMemory)>
        ensures lock { IfOk result (λ made. IsOf made.0 made.1) }
        ensures pass { IfOk result (λ made. known made.1 ≡ whole (S.log state)) }
        ensures back { IfErr result (λ refused. refused.0 ≡ state) }
    {
        match RuledArrayQueue::<S, View<S::Item>, TurnRule>::ruled(alloc, 1) {
            Ok((queue, place)) => {
                let lock = TurnLock { queue };
                let mut pass = Pass { place };
                lock.give(rt, state, &mut pass);
                Ok((lock, pass))
            }
            Err(_) => Err((state, NoMemory)),
        }
    }

    /// Takes the turn, and the value with it. It waits until no other pass has the turn.
    ///
    /// The log begins with all that the pass had seen or kept, and now the pass has seen the whole log. A pass with all
    /// 64 shares owns each place of the log.
    pub fn enter<R: Wait>(&self, rt: &R, pass: &mut Pass<S>) -> S
        requires lock { IsOf self.now pass.old }
        requires free { HoldsNothing pass.old }
        ensures lock { IsOf self.now pass.new }
        ensures pass { known pass.new ≡ after_enter (known pass.old) (S.log result) }
        ensures seen { IsPrefix (seen pass.old) (S.log result) }
        ensures kept { ArePrefixesOf (S.log result) (kept pass.old) }
        ensures all { share pass.old ≡ 64 → IsPermutation (places_of (S.log result)) (mine pass.old) }
    {
        for _ in rt.forever() {
            if let Some(state) = self.queue.pop_as::<Enter, R>(rt, &mut pass.place) {
                return state;
            }
            thread::yield_now();
        }
        unreachable!()
    }

    /// Gives the turn back, with a value whose log is what the pass has seen, or that and one item more. The new item's
    /// place is then the pass's own. There is always room for the value. It may wait, as a push to a queue may.
    pub fn leave<R: Wait>(&self, rt: &R, state: S, pass: &mut Pass<S>)
        requires lock { IsOf self.now pass.old }
        requires turn { HoldsTurn pass.old }
        requires log { AddsAtMostOne (seen pass.old) (S.log state) }
        ensures lock { IsOf self.now pass.new }
        ensures seen { seen pass.new ≡ S.log state }
        ensures same { S.log state ≡ seen pass.old → known pass.new ≡ left_as_it_was (known pass.old) }
        ensures more { (item : S.Item) → S.log state ≡ seen pass.old ++ item ∷ [] → known pass.new ≡ left_with (known pass.old) item }
    {
        self.give(rt, state, pass);
    }

    /// Puts the value into the empty queue, whose log may have grown by any number of items.
    fn give<R: Wait>(&self, rt: &R, state: S, pass: &mut Pass<S>)
        requires lock { IsOf self.now pass.old }
        requires turn { HoldsTurn pass.old }
        requires log { IsPrefix (seen pass.old) (S.log state) }
        ensures lock { IsOf self.now pass.new }
        ensures pass { known pass.new ≡ after_leave (known pass.old) (S.log state) }
    {
        match self.queue.push_as::<Leave, R>(rt, &mut pass.place, state) {
            Ok(()) => {}
            Err(_) => unreachable!(),
        }
    }
}

impl<S: Logged + Drop> TurnLock<S> {
    /// Takes the value out of the lock for good. It waits until no other pass has the turn.
    ///
    /// The log begins with all that the pass had seen or kept. A pass with all 64 shares owns each place of the log.
    pub fn finish<R: Wait>(self, rt: &R, mut pass: Pass<S>) -> S
        requires lock { IsOf self pass }
        requires free { HoldsNothing pass }
        ensures seen { IsPrefix (seen pass) (S.log result) }
        ensures kept { ArePrefixesOf (S.log result) (kept pass) }
        ensures all { share pass ≡ 64 → IsPermutation (places_of (S.log result)) (mine pass) }
    {
        self.enter(rt, &mut pass)
    }
}

impl<S: Logged> Pass<S> {
    /// Two passes in place of one. The first keeps the places and has half the share, rounded up; the second has the
    /// rest. Both have seen what the one had seen. Where there is no memory, the pass comes back.
    pub fn split(self, lock: &TurnLock<S>) -> Result<(Pass<S>, Pass<S>), Pass<S>>
        requires lock { IsOf lock.now self }
        requires free { HoldsNothing self }
        requires share { 2 ≤ share self }
        ensures lock { IfOk result (λ halves. IsOf lock.now halves.0 × IsOf lock.now halves.1) }
        ensures first { IfOk result (λ halves. known halves.0 ≡ first_half (known self)) }
        ensures second { IfOk result (λ halves. known halves.1 ≡ second_half (known self)) }
        ensures back { IfErr result (λ pass. pass ≡ self) }
    {
        let mut place = self.place;
        let other = lock.queue.another::<Halves>(&mut place);
        Ok((Pass { place }, Pass { place: other }))
    }

    /// One pass in place of two. It has the places of both, this pass's first, and both shares. It has seen the longer
    /// of the two lists of `seen`, and keeps both, and the lists that either kept, up to its next turn.
    pub fn join(self, lock: &TurnLock<S>, other: Pass<S>) -> Pass<S>
        requires lock { IsOf lock.now self × IsOf lock.now other }
        requires free { HoldsNothing self × HoldsNothing other }
        ensures lock { IsOf lock.now result }
        ensures pass { known result ≡ joined (known self) (known other) }
        ensures seen { IsPrefix (seen self) (seen result) × IsPrefix (seen other) (seen result) }
        ensures log { KnowsOneLog (known result) }
    {
        let mut place = self.place;
        lock.queue.absorb::<Joined>(&mut place, other.place);
        lock.queue.learn_as::<OneLog>(&mut place);
        Pass { place }
    }
}
