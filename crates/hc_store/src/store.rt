use hc_bits::Bits;
use hc_rows::Rows;

/// A row for each instance: the numbers of its nodes, and which of its parts are to be run again. An instance that has not
/// moved has its numbers as they were.
#[derive(Drop)]
pub struct Store {
    pub values: Rows<Bits>,
    pub stale: Rows<bool>,
    pub moved: Vec<bool>,
}
