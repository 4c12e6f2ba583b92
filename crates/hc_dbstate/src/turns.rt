use hc_canon::{EntryId, Form};

/// One insertion: the entry that it named, and whether that entry was new.
#[derive(Clone, Copy, Debug, PartialEq, Eq)]
pub struct Turn {
    pub entry: EntryId,
    pub fresh: bool,
}

/// A turn with the form of the entry that it named. Logs consist of these; no run makes one.
#[derive(Drop)]
pub struct Entered {
    pub entry: EntryId,
    pub fresh: bool,
    pub form: Form,
}
