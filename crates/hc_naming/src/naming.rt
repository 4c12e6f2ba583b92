//! The names in a module are taken one after another.
ghost use Rattle.std.specs.Prelude.{◌≡◌, ℕ, ◌+◌, ◌^◌, ◌<◌, ◌≤◌, ◌++◌, ◌∷◌, [], List, OnOk, IfOk, map, filter, length, drop, codes, decimal, unwrap_or};
ghost use Rattle.std.specs.List.{enumerate_from, zip};
ghost use Rattle.hc_naming.specs.ModuleNames.{first_number, is_operation, is_operation_row, want_input, want_output, want_node, want_memory, want_instance, want_cell, want_cells};
ghost use Rattle.hc_naming.specs.NameTable.{name_at, HasRoom, IsEmptyTable, IsFilled, IsNaming, HasNames, AreMarks, is_unmarked, from_outputs, from_nodes, from_memories, from_instances};

use crate::names::{ModuleNames, is_marked};
use hc_canon::Form;
use hc_fault::{Name, NoMemory};
use hc_names::Used;
use hc_signal::{Circuit, Instance, Memory, Node, NodeId, NodeRow, Port};
use itoa::Buffer;
use std::alloc::Global;

/// Empty slots.
fn empty_slots(alloc: Global, len: usize) -> Result<Vec<Option<Name>>, NoMemory>
    ensures len { IfOk result (λ slots. length slots.items ≡ len) }
    ensures empty { IfOk result (λ slots. (k : ℕ) → name_at slots.items k ≡ []) }
{
    let mut slots = Vec::with_capacity(alloc, len)?;
    while slots.len() < len {
        slots.push(None)?;
    }
    Ok(slots)
}

/// A table with room for the names of a circuit, and no name yet.
fn empty_names(alloc: Global, circuit: &Circuit) -> Result<ModuleNames, NoMemory>
    ensures room { IfOk result (HasRoom circuit.now) }
    ensures empty { IfOk result IsEmptyTable }
{
    let nodes = circuit.nodes().len();
    Ok(ModuleNames {
        nodes: empty_slots(alloc, nodes)?,
        memories: empty_slots(alloc, circuit.memories().len())?,
        instances: empty_slots(alloc, circuit.instances().len())?,
        cells: empty_slots(alloc, nodes)?,
    })
}

/// Takes the mangled form of a name into a slot.
fn fill(
    slots: &mut Vec<Option<Name>>,
    used: &mut Used,
    at: usize,
    wanted: &Name,
) -> Result<(), NoMemory>
    requires { at < length slots.old.items }
    ensures { OnOk result (IsFilled wanted.now used.old used.new slots.old.items slots.new.items at) }
{
    let given = used.take(wanted)?;
    slots[at] = Some(given);
    Ok(())
}

/// A letter and a number.
fn lettered(alloc: Global, letter: u8, number: usize) -> Result<Name, NoMemory>
    ensures { IfOk result (λ name. name ≡ letter ∷ decimal number) }
{
    let mut digits = Buffer::new();
    let mut bytes = Vec::new(alloc);
    bytes.push(letter)?;
    bytes.extend_from_slice(digits.format(number).as_bytes())?;
    Name::new(alloc, bytes.as_slice())
}

/// The label, else a letter and a number.
fn label_or(
    alloc: Global,
    label: &Option<Name>,
    letter: u8,
    number: usize,
) -> Result<Name, NoMemory>
    ensures { IfOk result (λ name. name ≡ unwrap_or label.now (letter ∷ decimal number)) }
{
    match label {
        Some(name) => Name::new(alloc, name.bytes()),
        None => lettered(alloc, letter, number),
    }
}

fn take_inputs(
    form: &Form,
    used: &mut Used,
    names: &mut ModuleNames,
    ports: &[Port],
) -> Result<(), NoMemory>
    requires all { ports.now ≡ form.now.circuit.ports.inputs }
    requires next { IsNaming form.now.circuit used.old names.old (map want_input (enumerate_from 0 ports.now) ++ from_outputs form.now.circuit) }
    ensures { OnOk result (IsNaming form.now.circuit used.new names.new (from_outputs form.now.circuit)) }
{
    form.canonical();
    for (k, port) in ports.iter().enumerate() {
        fill(&mut names.nodes, used, k, &port.name)?;
    }
    Ok(())
}

fn take_outputs(
    form: &Form,
    used: &mut Used,
    names: &mut ModuleNames,
    ids: &[NodeId],
    ports: &[Port],
) -> Result<(), NoMemory>
    requires ids { ids.now ≡ form.now.circuit.outputs }
    requires ports { ports.now ≡ form.now.circuit.ports.outputs }
    requires next { IsNaming form.now.circuit used.old names.old (map want_output (zip ids.now ports.now) ++ from_nodes form.now.circuit) }
    ensures { OnOk result (IsNaming form.now.circuit used.new names.new (from_nodes form.now.circuit)) }
{
    form.canonical();
    for (k, port) in ports.iter().enumerate() {
        fill(&mut names.nodes, used, ids[k].0 as usize, &port.name)?;
    }
    Ok(())
}

fn take_memories(
    alloc: Global,
    form: &Form,
    used: &mut Used,
    names: &mut ModuleNames,
    memories: &[Memory],
) -> Result<(), NoMemory>
    requires all { memories.now ≡ form.now.circuit.memories }
    requires next { IsNaming form.now.circuit used.old names.old (map want_memory (enumerate_from 0 memories.now) ++ from_instances form.now.circuit) }
    ensures { OnOk result (IsNaming form.now.circuit used.new names.new (from_instances form.now.circuit)) }
{
    form.canonical();
    for (k, memory) in memories.iter().enumerate() {
        let wanted = label_or(alloc, &memory.label, b'm', k)?;
        fill(&mut names.memories, used, k, &wanted)?;
    }
    Ok(())
}

fn take_instances(
    alloc: Global,
    form: &Form,
    used: &mut Used,
    names: &mut ModuleNames,
    instances: &[Instance],
) -> Result<(), NoMemory>
    requires all { instances.now ≡ form.now.circuit.instances }
    requires next { IsNaming form.now.circuit used.old names.old (map want_instance (enumerate_from 0 instances.now) ++ want_cells form.now.circuit) }
    ensures { OnOk result (IsNaming form.now.circuit used.new names.new (want_cells form.now.circuit)) }
{
    form.canonical();
    for (k, instance) in instances.iter().enumerate() {
        let wanted = label_or(alloc, &instance.label, b'u', k)?;
        fill(&mut names.instances, used, k, &wanted)?;
    }
    Ok(())
}

/// Takes the names of the nodes without a mark, of which the first has this place.
fn take_nodes(
    alloc: Global,
    form: &Form,
    marks: &[bool],
    used: &mut Used,
    names: &mut ModuleNames,
    first: usize,
    rows: &[NodeRow],
) -> Result<(), NoMemory>
    requires first { first ≡ first_number form.now.circuit }
    requires room { first + length rows.now ≤ length form.now.circuit.nodes }
    requires next { IsNaming form.now.circuit used.old names.old (map (want_node form.now.circuit) (filter (is_unmarked marks.now) (enumerate_from first rows.now)) ++ from_memories form.now.circuit) }
    ensures { OnOk result (IsNaming form.now.circuit used.new names.new (from_memories form.now.circuit)) }
{
    form.canonical();
    for (k, row) in rows.iter().enumerate() {
        if is_marked(marks, first + k) {
            continue;
        }
        let wanted = label_or(alloc, &row.label, b'n', k)?;
        fill(&mut names.nodes, used, first + k, &wanted)?;
    }
    Ok(())
}

/// Whether a node is an operation.
fn is_operation(node: &Node) -> bool
    ensures { result ≡ is_operation node.now }
{
    matches!(node, Node::Op { .. })
}

/// Takes the names of the cells of the operations among the nodes, of which the first has this place.
fn take_cells(
    alloc: Global,
    form: &Form,
    used: &mut Used,
    names: &mut ModuleNames,
    first: usize,
    rows: &[NodeRow],
) -> Result<(), NoMemory>
    requires first { first ≡ first_number form.now.circuit }
    requires room { first + length rows.now ≤ length form.now.circuit.nodes }
    requires next { IsNaming form.now.circuit used.old names.old (map (want_cell form.now.circuit) (filter is_operation_row (enumerate_from first rows.now))) }
    ensures { OnOk result (IsNaming form.now.circuit used.new names.new []) }
{
    form.canonical();
    for (k, row) in rows.iter().enumerate() {
        if !is_operation(&row.node) {
            continue;
        }
        let wanted = lettered(alloc, b'o', k)?;
        fill(&mut names.cells, used, first + k, &wanted)?;
    }
    Ok(())
}

/// The names in the module of a form, from the marks of its outputs, the place of its first numbered node and its numbered
/// nodes. Refused for want of memory only.
pub fn take_names(
    alloc: Global,
    form: &Form,
    marks: &[bool],
    first: usize,
    rows: &[NodeRow],
) -> Result<ModuleNames, NoMemory>
    requires marks { AreMarks form.now.circuit marks.now }
    requires first { first ≡ first_number form.now.circuit }
    requires rows { rows.now ≡ drop (first_number form.now.circuit) form.now.circuit.nodes }
    requires room { first + length rows.now ≤ length form.now.circuit.nodes }
    ensures { IfOk result (HasNames form.now.circuit) }
{
    let circuit = form.circuit();
    let ports = circuit.ports();
    let mut names = empty_names(alloc, circuit)?;
    let mut used = Used::new(alloc);
    take_clock(alloc, &mut used)?;
    take_inputs(form, &mut used, &mut names, ports.inputs.as_slice())?;
    take_outputs(
        form,
        &mut used,
        &mut names,
        circuit.outputs(),
        ports.outputs.as_slice(),
    )?;
    take_nodes(alloc, form, marks, &mut used, &mut names, first, rows)?;
    take_memories(alloc, form, &mut used, &mut names, circuit.memories())?;
    take_instances(alloc, form, &mut used, &mut names, circuit.instances())?;
    take_cells(alloc, form, &mut used, &mut names, first, rows)?;
    Ok(names)
}

/// Takes the name of the clock.
fn take_clock(alloc: Global, used: &mut Used) -> Result<(), NoMemory>
    requires { used.old ≡ [] }
    ensures { OnOk result (used.new ≡ codes "clock" ∷ []) }
{
    let clock = Name::new(alloc, b"clock")?;
    let _given = used.take(&clock)?;
    Ok(())
}
