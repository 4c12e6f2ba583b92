//! What is told when a half of the work begins and ends.

/// Hears of the halves that run beside each other. The first half is 1, and the second is 2. The half's pass holds nothing at either
/// call.
pub trait Gate {
    /// Before the first insertion of a half.
    fn arrive(&self, half: u32);

    /// After the last insertion of a half, also where memory ran out.
    fn done(&self, half: u32);
}

/// Lets each half go on.
#[derive(Clone, Copy)]
pub struct NoGate;

impl Gate for NoGate {
    fn arrive(&self, _half: u32) {}

    fn done(&self, _half: u32) {}
}
