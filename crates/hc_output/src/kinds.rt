use hc_bench::kinds::Bench;
use hc_signal::Circuit;

/// How the listing of a run is written: as it is, or as its digest line.
#[derive(Clone, Copy, Drop)]
pub(crate) enum ListingForm {
    Whole,
    Digest,
}

/// A circuit without instances, the bench that it is run by, and how the listing of its run is written.
#[derive(Drop)]
pub(crate) struct Played {
    pub(crate) circuit: Circuit,
    pub(crate) bench: Bench,
    pub(crate) form: ListingForm,
}

/// What a command writes: a text, and after it, where the command has one, what is written of the listing of a run.
#[derive(Drop)]
pub struct Output {
    pub(crate) text: Vec<u8>,
    pub(crate) played: Option<Played>,
}
