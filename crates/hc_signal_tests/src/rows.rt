use hc_fault::NoMemory;
use hc_rows::Rows;
use std::alloc::Global;
use std::test::Fail;

/// Rows of one, no and two items, and then two equal ones.
fn some_rows(alloc: Global) -> Result<Rows<u32>, NoMemory> {
    let mut rows = Rows::filled(alloc, &[1, 0], 7u32)?;
    rows.push_row(&[1, 2])?;
    rows.push_copies(2, 5)?;
    Ok(rows)
}

#[test]
fn rows_in_one_list(rt: HostRuntime) -> Result<(), Fail> {
    let mut rows = some_rows(rt.alloc()).expect(&rt, "memory for six numbers");
    assert!(rt; rows.start_row().is_ok());
    assert!(rt; rows.rows() > 4);
    assert!(rt; rows.push(9).is_ok());
    assert!(rt; rows.items() == [7, 1, 2, 5, 5, 9].as_slice());
    assert!(rt; rows.row(2).len() > 1);
    assert!(rt; rows.at(2, 1) == 2);
    assert!(rt; rows.number(2, 1) == 2);
    rows.put(2, 1, 3);
    assert!(rt; rows.row(2) == [1, 3].as_slice());
    assert!(rt; rows.items().len() == 6);
    rows.put_item(0, 8);
    assert!(rt; rows.row(0) == [8].as_slice());
    rows.fill(0);
    assert!(rt; rows.items() == [0, 0, 0, 0, 0, 0].as_slice());
    Ok(())
}
