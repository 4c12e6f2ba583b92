/// What a simulator knows of its values: nothing, that they are settled, or that a clock edge
/// changes nothing besides.
#[derive(Clone, Copy)]
pub enum Known {
    Nothing,
    Settled,
    Rest,
}
