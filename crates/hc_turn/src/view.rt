//! What a pass knows.
use std::collections::LinkedList;

/// What a pass knows. It stands in contracts alone, and no value of it is made.
pub struct View<I> {
    /// A prefix of the lock's log.
    pub seen: LinkedList<I>,
    /// The places of the log that are this pass's own. The places of all passes of a lock are those of the log, each once.
    pub mine: LinkedList<u64>,
    /// A share of 64. The shares of all passes of a lock are 64 together, and no pass is without one.
    pub share: u64,
    /// The lists of `seen` of the passes that were joined since the last turn. Each is a prefix of the lock's log.
    pub kept: LinkedList<LinkedList<I>>,
    /// Whether it has the turn.
    pub holds: bool,
}
