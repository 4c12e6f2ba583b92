use hc_fault::{Ident, ItemList};

/// A call of a circuit: its place among the circuits of the design, and a value for each of its parameters.
#[derive(Drop)]
pub struct Call {
    pub circuit: u32,
    pub args: ItemList<i64>,
}

/// The call of an instance, with the instance's name and its line.
#[derive(Drop)]
pub struct Child {
    pub call: Call,
    pub ident: Ident,
    pub line: u32,
}
