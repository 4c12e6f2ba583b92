ghost use Rattle.std.specs.Prelude.{◌≡◌, ◌∷◌, [], IfOk, map, length};
ghost use Rattle.hc_signal.specs.declared.signal.Port.{Port};
ghost use Rattle.hc_signal.specs.Lawful.{ArePorts};

use hc_bits::Bits;
use hc_fault::Name;
use hc_paths::kinds::{PathStop, Paths};
use hc_paths::make::{local_order, paths, schedule};
use hc_paths::{loops_and_masks_compose, loops_of_flat_nodes};
use hc_signal::{Builder, Circuit, NodeId, Op2};
use std::alloc::Global;
use std::process::Abort;
use std::test::Fail;

/// The inputs `i` and `j` and the outputs `o` and `p` of one bit: `o` is the complement of `i`, or where they are mixed
/// the `xor` of both inputs; `p` is the complement of `j`.
fn child(alloc: Global, mixed: bool) -> Result<Circuit, Fail>
    ensures ports { IfOk result (λ c. ArePorts c.ports) }
    ensures inputs { IfOk result (λ c. map (λ (p : Port). p.width) c.ports.inputs ≡ 1 ∷ 1 ∷ []) }
    ensures outputs { IfOk result (λ c. length c.ports.outputs ≡ 2) }
{
    let name = Name::new(alloc, b"p")?;
    let mut builder = Builder::new(alloc);
    let i = builder.input(&name, 1)?;
    let j = builder.input(&name, 1)?;
    let o = builder.output(&name, 1)?;
    let p = builder.output(&name, 1)?;
    let both = builder.two(Op2::Xor, i, j)?;
    let not_i = builder.not(i)?;
    let not_j = builder.not(j)?;
    builder.drive(o, if mixed { both } else { not_i })?;
    builder.drive(p, not_j)?;
    let circuit = builder.finish();
    circuit.lawful();
    Ok(circuit)
}

/// The masks of a circuit, or `None` where it has a loop.
fn masks(
    rt: &impl Abort,
    alloc: Global,
    circuit: &Circuit,
    kids: &[Paths],
) -> Result<Option<Vec<u128>>, Fail> {
    assert!(rt; circuit.ports().inputs.as_slice().len() <= 128);
    match paths(alloc, circuit, kids) {
        Ok(found) => Ok(Some(found.masks.into_vec())),
        Err(PathStop::Loop) => Ok(None),
        Err(PathStop::NoMemory) => Err(PathStop::NoMemory.into()),
    }
}

#[test]
fn masks_of_crossing_children(rt: HostRuntime) -> Result<(), Fail> {
    let alloc = rt.alloc();
    let plain = masks(&rt, alloc, &child(alloc, false)?, &[])?;
    assert!(rt; plain.is_some_and(|masks| masks.as_slice() == [1, 2].as_slice()));
    let mixed = masks(&rt, alloc, &child(alloc, true)?, &[])?;
    assert!(rt; mixed.is_some_and(|masks| masks.as_slice() == [3, 2].as_slice()));
    Ok(())
}

/// The number 0 of one bit.
fn zero(rt: &impl Abort) -> Bits
    ensures { result.width ≡ 1 }
{
    Bits::new(1, 0).expect(rt, "a width from 1 to 128")
}

/// The output 0 feeds the register 1, whose complement 2 drives the output.
fn toggle(rt: &impl Abort, alloc: Global) -> Result<Circuit, Fail> {
    let name = Name::new(alloc, b"p")?;
    let mut builder = Builder::new(alloc);
    let y = builder.output(&name, 1)?;
    let register = builder.reg(y, None, None, zero(rt))?;
    let next = builder.not(register)?;
    builder.drive(y, next)?;
    Ok(builder.finish())
}

/// The output 0 is the word 2 of a memory, at itself where it is looped, else at the input 1. The word is written back
/// where the input is 1.
fn word(alloc: Global, is_looped: bool) -> Result<Circuit, Fail> {
    let name = Name::new(alloc, b"p")?;
    let mut builder = Builder::new(alloc);
    let y = builder.output(&name, 1)?;
    let x = builder.input(&name, 1)?;
    let memory = builder.memory(2, 1)?;
    let word = builder.read(memory, if is_looped { y } else { x })?;
    builder.write(memory, x, x, word)?;
    builder.drive(y, word)?;
    Ok(builder.finish())
}

/// The schedule of a circuit without instances, or `None` where it has a loop. It is the order by no masks.
fn order(rt: &impl Abort, alloc: Global, circuit: &Circuit) -> Result<Option<Vec<NodeId>>, Fail> {
    assert_eq!(rt; circuit.instances().len(), 0);
    let local = local_order(alloc, circuit, &[]);
    match schedule(alloc, circuit) {
        Ok(order) => {
            assert!(rt; local.is_ok_and(|local| local.as_slice() == order.as_slice()));
            Ok(Some(order))
        }
        Err(PathStop::Loop) => Ok(None),
        Err(PathStop::NoMemory) => Err(PathStop::NoMemory.into()),
    }
}

/// The circuit has one output with this mask, or a loop, and so for its schedule.
fn assert_found(
    rt: &impl Abort,
    alloc: Global,
    circuit: &Circuit,
    expected: Option<u128>,
) -> Result<(), Fail> {
    let found = masks(rt, alloc, circuit, &[])?;
    let order = order(rt, alloc, circuit)?;
    match expected {
        Some(mask) => {
            let nodes = [1, 2, 0].map(NodeId);
            assert!(rt; found.is_some_and(|masks| masks.as_slice() == [mask].as_slice()));
            assert!(rt; order.is_some_and(|order| order.as_slice() == nodes.as_slice()));
        }
        None => assert!(rt; found.is_none() && order.is_none()),
    }
    Ok(())
}

/// The register of `toggle` breaks its loop.
fn assert_toggle_found(rt: &impl Abort, alloc: Global) -> Result<(), Fail> {
    let circuit = toggle(rt, alloc)?;
    assert_found(rt, alloc, &circuit, Some(0))
}

/// `word` has this mask, or a loop.
fn assert_word_found(
    rt: &impl Abort,
    alloc: Global,
    is_looped: bool,
    expected: Option<u128>,
) -> Result<(), Fail> {
    let circuit = word(alloc, is_looped)?;
    assert_found(rt, alloc, &circuit, expected)
}

#[test]
fn state_breaks_loops_and_addresses_do_not(rt: HostRuntime) -> Result<(), Fail> {
    assert_toggle_found(&rt, rt.alloc())?;
    assert_word_found(&rt, rt.alloc(), false, Some(1))?;
    assert_word_found(&rt, rt.alloc(), true, None)?;
    loops_and_masks_compose();
    loops_of_flat_nodes();
    Ok(())
}
