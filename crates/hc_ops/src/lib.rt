//! Operations of the catalogue as stored closures, each beside the fact of what it answers, and a
//! table with one for each kind.
#![tactic(auto)]

mod comb_op;
pub mod functions;
mod table;

pub use comb_op::{CombOp, Run};
pub use table::OpTable;
