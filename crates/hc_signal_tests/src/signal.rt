ghost use Rattle.std.specs.Prelude.{◌≡◌, ◌∷◌, [], IfOk, OnOk, length, map};
ghost use Rattle.hc_signal.specs.declared.signal.NodeRow.{NodeRow};
ghost use Rattle.hc_signal.specs.declared.signal.Port.{Port};
ghost use Rattle.hc_signal.specs.Builds.{HasOutput};
ghost use Rattle.hc_signal.specs.Tree.{empty};
ghost use Rattle.hc_signal.specs.Weight.{graph_weight};

use hc_bits::{Bits, OpKind};
use hc_fault::{FaultKind, Name};
use hc_signal::{BuildStop, Builder, Circuit, Ids, InstId, NodeId, NodeRow, Op2, Port};
use std::alloc::Global;
use std::process::Abort;
use std::test::Fail;

const A: NodeId = NodeId(0);

const B: NodeId = NodeId(1);

const BIT: NodeId = NodeId(2);

/// The number 0 in this width.
fn zero(rt: &impl Abort, width: u32) -> Bits
    ensures { result.width ≡ width }
{
    Bits::new(width, 0).expect(rt, "a width from 1 to 128")
}

/// The inputs `A` and `B` of 8 bits and `BIT` of one.
fn three_inputs(alloc: Global) -> Result<Builder, Fail>
    ensures weight { IfOk result (λ b. graph_weight b ≡ 3) }
    ensures widths { IfOk result (λ b. map (λ (row : NodeRow). row.width) b.nodes ≡ 8 ∷ 8 ∷ 1 ∷ []) }
{
    let name = Name::new(alloc, b"p")?;
    let mut builder = Builder::new(alloc);
    builder.input(&name, 8)?;
    builder.input(&name, 8)?;
    builder.input(&name, 1)?;
    Ok(builder)
}

fn assert_widths(rt: &impl Abort, builder: &mut Builder) -> Result<(), Fail>
    requires weight { graph_weight builder.old ≡ 3 }
    requires widths { map (λ (row : NodeRow). row.width) builder.old.nodes ≡ 8 ∷ 8 ∷ 1 ∷ [] }
{
    let difference = builder.two(Op2::Sub, A, B)?;
    let product = builder.two(Op2::Mulu, A, BIT)?;
    let less = builder.two(Op2::Lt, A, B)?;
    assert_eq!(rt; builder.width(difference), 8);
    assert_eq!(rt; builder.width(product), 9);
    assert_eq!(rt; builder.width(less), 1);
    // three inputs, and three nodes of two operands
    assert_eq!(rt; builder.weight(), 12);
    Ok(())
}

#[test]
fn nodes_have_their_widths(rt: HostRuntime) -> Result<(), Fail> {
    let mut builder = three_inputs(rt.alloc())?;
    assert_widths(&rt, &mut builder)
}

#[test]
fn operations_have_their_widths(rt: HostRuntime) -> Result<(), Fail> {
    let mut builder = three_inputs(rt.alloc())?;
    let ones = builder.op(OpKind::Popcount, &[A])?;
    assert_eq!(rt; builder.width(ones), 4);
    Ok(())
}

/// The answer is a refusal for this fault, and the builder is that of `three_inputs` as before.
fn assert_refused(
    rt: &impl Abort,
    answer: Result<NodeId, BuildStop>,
    builder: Builder,
    kind: FaultKind,
) {
    assert_eq!(rt; answer, Err(BuildStop::Fault(kind)));
    assert_eq!(rt; builder.weight(), 3);
    assert_eq!(rt; builder.finish().nodes().len(), 3);
}

#[test]
fn a_select_past_the_width_leaves_the_builder_unchanged(rt: HostRuntime) -> Result<(), Fail> {
    let mut builder = three_inputs(rt.alloc())?;
    let answer = builder.select(A, 8, 0);
    assert_refused(&rt, answer, builder, FaultKind::SelectRange);
    Ok(())
}

#[test]
fn operands_of_other_widths_are_refused(rt: HostRuntime) -> Result<(), Fail> {
    let mut builder = three_inputs(rt.alloc())?;
    let sum = builder.two(Op2::Add, A, BIT);
    assert_refused(&rt, sum, builder, FaultKind::WidthMismatch);
    Ok(())
}

#[test]
fn a_product_past_128_bits_is_refused(rt: HostRuntime) -> Result<(), Fail> {
    let mut builder = three_inputs(rt.alloc())?;
    let wide = builder.constant(zero(&rt, 128))?;
    let product = builder.two(Op2::Mulu, wide, BIT);
    assert_eq!(rt; product, Err(BuildStop::Fault(FaultKind::Width)));
    Ok(())
}

#[test]
fn a_driven_wire_takes_no_other_driver(rt: HostRuntime) -> Result<(), Fail> {
    let name = Name::new(rt.alloc(), b"p")?;
    let mut builder = Builder::new(rt.alloc());
    let input = builder.input(&name, 8)?;
    let bit = builder.input(&name, 1)?;
    let output = builder.output(&name, 8)?;
    builder.drive(output, input)?;
    let other = builder.drive(output, bit);
    assert_eq!(rt; other, Err(BuildStop::Fault(FaultKind::WidthMismatch)));
    let second = builder.drive(output, input);
    assert_eq!(rt; second, Err(BuildStop::Fault(FaultKind::DrivenTwice)));
    let circuit = builder.finish();
    assert!(rt; circuit.outputs() == [output].as_slice());
    assert_eq!(rt; circuit.nodes().len(), 3);
    Ok(())
}

/// Adds a register, and a memory that it reads and writes.
fn add_state(rt: &impl Abort, builder: &mut Builder, name: &Name) -> Result<(), Fail>
    requires { builder.old ≡ empty }
{
    let next = builder.input(name, 8)?;
    let bit = builder.input(name, 1)?;
    let clear = zero(rt, 8);
    let register = builder.reg(next, Some(bit), Some((bit, clear)), clear)?;
    let memory = builder.memory(65_536, 8)?;
    let word = builder.read(memory, register)?;
    builder.write(memory, bit, register, word)?;
    // two inputs, a register of three operands, a memory, its read and its write port
    assert_eq!(rt; builder.weight(), 13);
    let wide = builder.reg(next, Some(next), None, clear);
    assert_eq!(rt; wide, Err(BuildStop::Fault(FaultKind::WidthMismatch)));
    Ok(())
}

#[test]
fn registers_and_memories(rt: HostRuntime) -> Result<(), Fail> {
    let name = Name::new(rt.alloc(), b"p")?;
    let mut builder = Builder::new(rt.alloc());
    add_state(&rt, &mut builder, &name)?;
    assert_eq!(rt; builder.finish().memories().len(), 1);
    Ok(())
}

#[test]
fn a_write_of_other_widths_is_refused(rt: HostRuntime) -> Result<(), Fail> {
    let name = Name::new(rt.alloc(), b"p")?;
    let mut builder = Builder::new(rt.alloc());
    let wide = builder.input(&name, 8)?;
    let memory = builder.memory(1, 1)?;
    let write = builder.write(memory, wide, wide, wide);
    assert_eq!(rt; write, Err(BuildStop::Fault(FaultKind::WidthMismatch)));
    Ok(())
}

#[test]
fn memories_are_refused_by_their_width_first(rt: HostRuntime) {
    for (size, width, kind) in [
        (0, 129, FaultKind::Width),
        (0, 128, FaultKind::MemorySize),
        (65_537, 1, FaultKind::MemorySize),
    ] {
        let mut builder = Builder::new(rt.alloc());
        assert_eq!(rt; builder.memory(size, width), Err(BuildStop::Fault(kind)));
    }
}

/// An input of 8 bits, and outputs of one and of 7 bits.
fn child(alloc: Global) -> Result<Circuit, Fail>
    ensures inputs { IfOk result (λ c. map (λ (p : Port). p.width) c.ports.inputs ≡ 8 ∷ []) }
    ensures outputs { IfOk result (λ c. length c.ports.outputs ≡ 2) }
{
    let name = Name::new(alloc, b"p")?;
    let mut builder = Builder::new(alloc);
    builder.input(&name, 8)?;
    builder.output(&name, 1)?;
    builder.output(&name, 7)?;
    Ok(builder.finish())
}

/// Adds an input of 8 bits, and an instance of a circuit which it feeds.
fn add_instance(builder: &mut Builder, name: &Name, child: &Circuit) -> Result<(), Fail>
    requires builder { builder.old ≡ empty }
    requires inputs { map (λ (p : Port). p.width) child.now.ports.inputs ≡ 8 ∷ [] }
    requires outputs { length child.now.ports.outputs ≡ 2 }
    ensures instances { OnOk result (length builder.new.instances ≡ 1) }
    ensures output { OnOk result (HasOutput builder.new (record { 0 = 0 }) 1) }
{
    child.lawful();
    let input = builder.input(name, 8)?;
    builder.instance(child.ports(), &[input])?;
    Ok(())
}

/// An input of 8 bits, and the instance 0 of `child`.
fn parent(alloc: Global) -> Result<Builder, Fail>
    ensures instances { IfOk result (λ b. length b.instances ≡ 1) }
    ensures output { IfOk result (λ b. HasOutput b (record { 0 = 0 }) 1) }
{
    let name = Name::new(alloc, b"p")?;
    let child = child(alloc)?;
    let mut builder = Builder::new(alloc);
    add_instance(&mut builder, &name, &child)?;
    Ok(builder)
}

#[test]
fn an_instance_has_a_node_for_each_output(rt: HostRuntime) -> Result<(), Fail> {
    let builder = parent(rt.alloc())?;
    // an input, an instance of one connection and two nodes
    assert_eq!(rt; builder.weight(), 6);
    let second = builder.out(InstId(0), 1);
    assert_eq!(rt; second, NodeId(2));
    assert_eq!(rt; builder.width(second), 7);
    Ok(())
}

#[test]
fn an_instance_takes_a_label(rt: HostRuntime) -> Result<(), Fail> {
    let name = Name::new(rt.alloc(), b"p")?;
    let mut builder = parent(rt.alloc())?;
    builder.label_instance(InstId(0), &name)?;
    assert_eq!(rt; builder.finish().instances().len(), 1);
    Ok(())
}

/// A wire and a memory take one label each, and an output none.
fn put_labels(rt: &impl Abort, builder: &mut Builder, name: &Name) -> Result<(), Fail>
    requires { builder.old ≡ empty }
{
    let output = builder.output(name, 8)?;
    let wire = builder.wire(8)?;
    let memory = builder.memory(2, 8)?;
    builder.label_node(wire, name)?;
    builder.label_memory(memory, name)?;
    let repeated = Err(BuildStop::Fault(FaultKind::RepeatedName));
    assert_eq!(rt; builder.label_node(wire, name), repeated);
    assert_eq!(rt; builder.label_memory(memory, name), repeated);
    assert_eq!(rt; builder.label_node(output, name), repeated);
    Ok(())
}

#[test]
fn labels_are_put_once(rt: HostRuntime) -> Result<(), Fail> {
    let name = Name::new(rt.alloc(), b"p")?;
    let mut builder = Builder::new(rt.alloc());
    put_labels(&rt, &mut builder, &name)
}

#[test]
fn ids_past_four_are_kept(rt: HostRuntime) -> Result<(), Fail> {
    let nodes = [BIT, A, B, A, A];
    let ids = Ids::from_slice(rt.alloc(), &nodes)?;
    assert!(rt; ids.as_slice() == nodes.as_slice());
    Ok(())
}
