//! The compiled plan of an entry: steps and parts by numbers alone, with tables of who reads what.
#![tactic(auto)]

mod compiled;
mod kids;
mod laws;
mod lookups;
mod masks;
mod part;
mod spot;
mod starts;
mod step;

pub use compiled::Plan;
pub use kids::{kid_circuit, kid_plan, output_of};
pub use laws::{crossings_have_plans, pushes_keep_ready};
pub use lookups::{count_parts, count_steps, gives, part_at, row_at, step_at};
pub use masks::{all_of, is_bit};
pub use part::Part;
pub use spot::{NOWHERE, Spot, spot_of};
pub use starts::{narrow, starts_of_inputs};
pub use step::{Fact, Step, fact_of};
