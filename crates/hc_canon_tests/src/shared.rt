//! What threads share and send of forms, turns and hierarchies.
use hc_canon::{EntryId, Form};
use hc_dbstate::{Hier, Turn};
use std::test::Fail;

fn is_shared<T: Sync + Send>() {}

#[test]
fn forms_are_shared(_rt: HostRuntime) -> Result<(), Fail> {
    is_shared::<EntryId>();
    is_shared::<Form>();
    is_shared::<Turn>();
    Ok(())
}

#[test]
fn hierarchies_are_shared(_rt: HostRuntime) -> Result<(), Fail> {
    is_shared::<Hier>();
    Ok(())
}
