//! Laws of settled values and traces.
#![tactic(auto)]

mod laws;

pub use laws::{
    benches_have_runs, benches_run, flat_graphs_run_alike, listings_are_of_runs,
    loop_free_trees_settle_once, parts_of_listings_are_fronts, runs_are_single,
    same_trees_run_alike, traces_are_single,
};
