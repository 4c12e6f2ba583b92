//! Numbers and marks of all instances of a hierarchy in rows, and how they settle: stale parts are run, and what reads a number
//! that changes is woken.
#![tactic(auto)]

mod instance;
mod parts;
mod put;
mod settling;
mod site;
mod steps;
mod store;
mod waking;

pub use parts::run;
pub use settling::settle;
pub use site::Site;
pub use store::Store;
pub use waking::{wake, wake_all};
