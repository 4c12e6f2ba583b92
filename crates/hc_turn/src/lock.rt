//! The lock and its passes.
ghost use Rattle.std.specs.Prelude.{◌≡◌, ◌<◌};
ghost use Rattle.crossbeam_queue.specs.Passes.{view, ruled_capacity};

use crate::logged::Logged;
use crate::rule::TurnRule;
use crate::view::View;
use crossbeam_queue::RuledArrayQueue;

/// A lock that threads share, over one value. The value lies in a queue of one place, and a pass that takes it out has
/// the turn until it puts it back.
#[derive(Drop)]
pub struct TurnLock<S: Logged> {
    pub(crate) queue: RuledArrayQueue<S, View<S::Item>, TurnRule>,
    ghost one_place: { ruled_capacity queue ≡ 1 },
}

/// The right of one thread to take turns, with what it knows of the lock's log. It has no bytes.
///
/// A dropped pass keeps its share and its places for good, so no other pass comes to have all of them.
#[derive(Drop)]
pub struct Pass<S: Logged> {
    pub(crate) place: crossbeam_queue::Pass<S, View<S::Item>>,
    ghost live: { 0 < (view place).share },
}
