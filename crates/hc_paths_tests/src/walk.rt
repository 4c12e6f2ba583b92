use hc_fault::Name;
use hc_signal::{Builder, Circuit, NodeId, Op2};
use hc_walk::{VertexId, one_walk, walk};
use std::alloc::Global;
use std::test::Fail;

/// The output 0, the inputs 1 and 2, the node 3 that subtracts 1 from 2 and drives the output, and a wire that no output
/// reaches.
fn difference(alloc: Global) -> Result<Circuit, Fail> {
    let name = Name::new(alloc, b"p")?;
    let mut builder = Builder::new(alloc);
    let output = builder.output(&name, 8)?;
    let a = builder.input(&name, 8)?;
    let b = builder.input(&name, 8)?;
    let difference = builder.two(Op2::Sub, b, a)?;
    builder.drive(output, difference)?;
    builder.wire(8)?;
    Ok(builder.finish())
}

#[test]
fn meets_operands_in_order(rt: HostRuntime) -> Result<(), Fail> {
    one_walk();
    let met = walk(rt.alloc(), &difference(rt.alloc())?)?;
    let expected = [0, 3, 2, 1].map(|n| VertexId::Node(NodeId(n)));
    assert!(rt; met.as_slice() == expected.as_slice());
    Ok(())
}
