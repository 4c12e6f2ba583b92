//! The rule of a lock's queue, and what its steps tell.
ghost use Rattle.std.specs.Prelude.{◌≡◌, IsTrue, length, ⊤};
ghost use Rattle.hc_turn.specs.Views.{KnowsOneLog, maker, after_leave, first_half, second_half, joined, spent};
ghost use Rattle.hc_turn.specs.Rule.{LockInvariant, Enters};

use crate::logged::Logged;
use crate::view::View;
use crossbeam_queue::protocol::{Join, Lesson, Outcome, Protocol, Split};

/// The lock invariant, which each step keeps.
pub struct TurnRule;

impl<S: Logged> Protocol<S, View<S::Item>> for TurnRule {
    ghost holds = { LockInvariant S.log };

    ghost first = { maker };
}

/// A pop. One that gives nothing tells nothing.
pub struct Enter;

impl<S: Logged> Outcome<S, View<S::Item>> for Enter {
    ghost then = { λ v state w. Enters v (S.log state) w };
}

impl<S: Logged> Lesson<S, View<S::Item>> for Enter {
    ghost fact = { λ v states. ⊤ };
}

/// A push. The queue of a holder of the turn is empty, so it does not fail.
pub struct Leave;

impl<S: Logged> Outcome<S, View<S::Item>> for Leave {
    ghost then = { λ v state w. w ≡ after_leave v (S.log state) };
}

impl<S: Logged> Lesson<S, View<S::Item>> for Leave {
    ghost fact = { λ v states. IsTrue v.holds → length states ≡ 0 };
}

/// One pass becomes two.
pub struct Halves;

impl<I> Split<View<I>> for Halves {
    ghost left = { first_half };

    ghost right = { second_half };
}

/// Two passes become one.
pub struct Joined;

impl<I> Join<View<I>> for Joined {
    ghost both = { joined };

    ghost spent = { spent };
}

/// All that a pass has seen and kept are prefixes of one log.
pub struct OneLog;

impl<S: Logged> Lesson<S, View<S::Item>> for OneLog {
    ghost fact = { λ v states. KnowsOneLog v };
}
