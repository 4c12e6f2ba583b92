use hc_bits::Bits;
use hc_rows::Rows;
use hc_values::Words;

/// What is stored in all instances, a row for each: a register for each of its nodes, of which those of registers count, and
/// the words of each of its memories.
#[derive(Drop)]
pub struct Contents {
    pub registers: Rows<Bits>,
    pub words: Rows<Words>,
}
