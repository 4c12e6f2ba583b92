use hc_bits::Bits;
use hc_fault::ItemList;

/// A step of a bench: an input takes a value, a number of clock cycles, or all registers take their initial values.
#[derive(Clone, Copy, Debug, PartialEq, Eq)]
pub enum Step {
    Set { port: u32, value: Bits },
    Cycle { times: u32 },
    Reset,
}

/// The steps of a bench, in order.
#[derive(Drop)]
pub struct Bench {
    pub steps: ItemList<Step>,
}
