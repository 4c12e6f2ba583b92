use hc_fault::ItemList;
use hc_signal::Circuit;
pub use hc_statements::kinds::{Call, Child};

/// An elaborated body: its circuit, and the call of each instance, in order. The weight is that of the circuit's rows
/// and one for each line and turn that counted; the words are those of its memories.
#[derive(Drop)]
pub struct Body {
    pub circuit: Circuit,
    pub children: ItemList<Child>,
    pub weight: u64,
    pub words: u64,
}
