//! What threads share and send of paths.
use hc_paths::kinds::{PathStop, Paths};
use std::test::Fail;

fn is_shared<T: Sync + Send>() {}

#[test]
fn paths_are_shared(_rt: HostRuntime) -> Result<(), Fail> {
    is_shared::<Paths>();
    is_shared::<PathStop>();
    Ok(())
}
