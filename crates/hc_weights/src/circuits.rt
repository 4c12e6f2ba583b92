//! The weight of a circuit.
ghost use Rattle.std.specs.Prelude.{◌≡◌, ◌+◌, sum_by, IfOk};
ghost use Rattle.hc_signal.specs.Weight.{graph_weight, instance_weight, memory_weight, node_weight, operands};

use hc_fault::NoMemory;
use hc_signal::{Circuit, Instance, Memory, Node, NodeRow};

/// A sum in 64 bits; want of memory where it needs more.
pub(crate) fn sum_of(a: u64, b: u64) -> Result<u64, NoMemory>
    ensures { IfOk result (λ n. n ≡ a + b) }
{
    match a.checked_add(b) {
        Some(n) => Ok(n),
        None => Err(NoMemory),
    }
}

/// How many operands a node has. A wire has one, driven or not; the memory of a read is none.
fn operand_count(node: &Node) -> Result<u64, NoMemory>
    ensures { IfOk result (λ n. n ≡ operands node.now) }
{
    match node {
        Node::Input { .. } | Node::Const { .. } | Node::InstOut { .. } => Ok(0),
        Node::Wire { .. } | Node::Not { .. } | Node::Select { .. } | Node::Read { .. } => Ok(1),
        Node::Two { .. } => Ok(2),
        Node::Mux { cases, .. } => sum_of(1, cases.as_slice().len() as u64),
        Node::Cat { parts } => Ok(parts.as_slice().len() as u64),
        Node::Reg { enable, clear, .. } => Ok(
            1 + u64::from(enable.is_some()) + u64::from(clear.is_some()),
        ),
        Node::Op { args, .. } => Ok(args.as_slice().len() as u64),
    }
}

/// The weight of a node.
fn weight_of_node(row: &NodeRow) -> Result<u64, NoMemory>
    ensures { IfOk result (λ n. n ≡ node_weight row.now) }
{
    let count = operand_count(&row.node)?;
    sum_of(1, count)
}

/// The weight of a memory.
fn weight_of_memory(memory: &Memory) -> Result<u64, NoMemory>
    ensures { IfOk result (λ n. n ≡ memory_weight memory.now) }
{
    let ports = memory.writes.as_slice().len() as u64;
    let twice = sum_of(ports, ports)?;
    let four = sum_of(twice, twice)?;
    sum_of(1, four)
}

/// The weight of an instance.
fn weight_of_instance(instance: &Instance) -> Result<u64, NoMemory>
    ensures { IfOk result (λ n. n ≡ instance_weight instance.now) }
{
    let conns = instance.conns.as_slice().len() as u64;
    let twice = sum_of(conns, conns)?;
    sum_of(1, twice)
}

/// The weight of nodes together.
fn weight_of_nodes(rows: &[NodeRow]) -> Result<u64, NoMemory>
    ensures { IfOk result (λ n. n ≡ sum_by node_weight rows.now) }
{
    let mut sum = 0;
    'rows: for row in rows {
        sum = sum_of(sum, weight_of_node(row)?)?;
    }
    Ok(sum)
}

/// The weight of memories together.
fn weight_of_memories(memories: &[Memory]) -> Result<u64, NoMemory>
    ensures { IfOk result (λ n. n ≡ sum_by memory_weight memories.now) }
{
    let mut sum = 0;
    'memories: for memory in memories {
        sum = sum_of(sum, weight_of_memory(memory)?)?;
    }
    Ok(sum)
}

/// The weight of instances together.
fn weight_of_instances(instances: &[Instance]) -> Result<u64, NoMemory>
    ensures { IfOk result (λ n. n ≡ sum_by instance_weight instances.now) }
{
    let mut sum = 0;
    'instances: for instance in instances {
        sum = sum_of(sum, weight_of_instance(instance)?)?;
    }
    Ok(sum)
}

/// The weight of a circuit.
pub fn circuit_weight(circuit: &Circuit) -> Result<u64, NoMemory>
    ensures { IfOk result (λ n. n ≡ graph_weight circuit.now) }
{
    let nodes = weight_of_nodes(circuit.nodes())?;
    let memories = weight_of_memories(circuit.memories())?;
    let instances = weight_of_instances(circuit.instances())?;
    let state = sum_of(nodes, memories)?;
    sum_of(state, instances)
}
