use crate::circuits::{and_first, or_first};
use hc_canon::{Form, canon, hash, same};
use hc_check::check;
use hc_fault::Name;
use hc_signal::{Builder, Circuit, NodeId, Op2};
use std::alloc::Global;
use std::process::Abort;
use std::test::Fail;

/// The form of a circuit without instances.
fn form_of(rt: &impl Abort, alloc: Global, circuit: &Circuit) -> Result<Form, Fail> {
    check(alloc, circuit)?;
    assert_eq!(rt; circuit.instances().len(), 0);
    Ok(canon(alloc, circuit, &[])?)
}

/// Equal forms of six nodes, the output the third of them.
fn assert_equal(rt: &impl Abort, a: &Form, b: &Form) {
    assert!(rt; same(a, b));
    assert_eq!(rt; hash(a), hash(b));
    assert!(rt; a.circuit().outputs() == [NodeId(2)].as_slice());
    assert_eq!(rt; a.circuit().nodes().len(), 6);
}

fn and_first_form(rt: &impl Abort, alloc: Global) -> Result<Form, Fail> {
    let circuit = and_first(alloc)?;
    form_of(rt, alloc, &circuit)
}

fn or_first_form(rt: &impl Abort, alloc: Global) -> Result<Form, Fail> {
    let circuit = or_first(alloc, None)?;
    form_of(rt, alloc, &circuit)
}

#[test]
fn equal_bodies_have_equal_forms(rt: HostRuntime) -> Result<(), Fail> {
    let a = and_first_form(&rt, rt.alloc())?;
    let b = or_first_form(&rt, rt.alloc())?;
    assert_equal(&rt, &a, &b);
    Ok(())
}

/// An input, an output, and a chain of `xor`s between them.
fn chain(rt: &impl Abort, alloc: Global, length: u32) -> Result<Circuit, Fail> {
    let mut builder = Builder::new(alloc);
    let x = builder.input(&Name::new(alloc, b"x")?, 8)?;
    let mut last = x;
    'links: for _ in 0..length {
        assert!(rt; builder.weight() < 1_000_000);
        last = builder.two(Op2::Xor, last, x)?;
    }
    assert!(rt; builder.weight() < 1_000_000);
    let y = builder.output(&Name::new(alloc, b"y")?, 8)?;
    builder.drive(y, last)?;
    Ok(builder.finish())
}

fn chain_form(rt: &impl Abort, alloc: Global, length: u32) -> Result<Form, Fail> {
    let circuit = chain(rt, alloc, length)?;
    form_of(rt, alloc, &circuit)
}

/// A form of so many nodes and no instances is the form of its own circuit.
fn assert_kept(rt: &impl Abort, alloc: Global, form: &Form, nodes: usize) -> Result<(), Fail> {
    let again = form_of(rt, alloc, form.circuit())?;
    assert!(rt; same(form, &again));
    assert_eq!(rt; form.circuit().nodes().len(), nodes);
    assert!(rt; form.kids().is_empty());
    Ok(())
}

#[test]
fn long_chains_keep_their_forms(rt: HostRuntime) -> Result<(), Fail> {
    let form = chain_form(&rt, rt.alloc(), 200)?;
    assert_kept(&rt, rt.alloc(), &form, 202)
}
