use hc_canon::EntryId;
use hc_fault::Name;
use hc_names::{Names, Used};
use std::test::Fail;

#[test]
fn names_are_given_apart(rt: HostRuntime) -> Result<(), Fail> {
    let alloc = rt.alloc();
    let mut used = Used::new(alloc);
    for (requested, given) in [
        ("f_0", "f_0"),
        ("f", "f"),
        ("f", "f_1"),
        ("t", "t"),
        ("f", "f_2"),
        ("f_0", "f_0_0"),
    ] {
        let name = used.take(&Name::new(alloc, requested.as_bytes())?)?;
        assert!(rt; name.bytes() == given.as_bytes());
    }
    Ok(())
}

#[test]
fn entries_have_their_rows(rt: HostRuntime) -> Result<(), Fail> {
    let alloc = rt.alloc();
    let mut names = Names::new(alloc);
    names.add(EntryId(3), Name::new(alloc, b"f")?)?;
    assert_eq!(rt; names.len(), 1);
    assert!(rt; names.of(EntryId(4)).is_none());
    match (names.of(EntryId(3)), names.row(0)) {
        (Some(name), Some((id, same))) => {
            assert!(rt;
                name.bytes() == b"f".as_slice()
                    && same.bytes() == b"f".as_slice()
                    && id == EntryId(3)
            )
        }
        _ => assert!(rt; false),
    }
    Ok(())
}
