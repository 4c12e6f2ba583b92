//! A lock over one value with a log, and passes through it. A pass knows which prefix of the log it has seen, and
//! which places of the log are its own.
#![tactic(auto)]

mod lock;
mod logged;
mod rule;
mod turns;
mod view;

pub use lock::{Pass, TurnLock};
pub use logged::Logged;
pub use view::View;
