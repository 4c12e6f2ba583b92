//! The declarations of a module.
ghost use Rattle.std.specs.Prelude.{◌≡◌, ◌+◌, ◌^◌, ◌<◌, ◌++◌, ◌∷◌, [], OnOk, map, length, filter, if◌then◌else◌};
ghost use Rattle.std.specs.List.{enumerate_from};
ghost use Rattle.hc_bits.specs.Digits.{lines_text};
ghost use Rattle.hc_naming.specs.NameTable.{name_by, mark_at, is_unmarked};
ghost use Rattle.hc_verilog.specs.Templates.{wire_declaration, register_declaration, declaration, memory_declaration};

use crate::text::{push, push_decimal, push_literal, push_range};
use hc_bits::Bits;
use hc_fault::NoMemory;
use hc_naming::{ModuleNames, is_marked};
use hc_signal::{Memory, Node, NodeRow};

#[tactic(auto, unfolding(crate::specs::Templates::wire_declaration))]
fn push_wire(out: &mut Vec<u8>, name: &[u8], width: u32) -> Result<(), NoMemory>
    ensures { OnOk result (out.new.items ≡ out.old.items ++ (wire_declaration name.now width ++ 10 ∷ [])) }
{
    push(out, b"  wire ")?;
    push_range(out, width)?;
    push(out, b" ")?;
    push(out, name)?;
    push(out, b";\n")
}

#[tactic(auto, unfolding(crate::specs::Templates::register_declaration))]
fn push_register(out: &mut Vec<u8>, name: &[u8], width: u32, init: Bits) -> Result<(), NoMemory>
    ensures { OnOk result (out.new.items ≡ out.old.items ++ (register_declaration name.now width init ++ 10 ∷ [])) }
{
    push(out, b"  reg ")?;
    push_range(out, width)?;
    push(out, b" ")?;
    push(out, name)?;
    push(out, b" = ")?;
    push_literal(out, width, init.value())?;
    push(out, b";\n")
}

#[tactic(auto, unfolding(crate::specs::Templates::declaration))]
fn push_declaration(
    out: &mut Vec<u8>,
    names: &ModuleNames,
    place: usize,
    row: &NodeRow,
) -> Result<(), NoMemory>
    ensures { OnOk result (out.new.items ≡ out.old.items ++ (declaration (name_by names.now) (place, row.now) ++ 10 ∷ [])) }
{
    let name = names.node(place);
    match &row.node {
        Node::Reg { init, .. } => push_register(out, name, row.width, *init),
        Node::Input { .. }
        | Node::Wire { .. }
        | Node::Const { .. }
        | Node::Two { .. }
        | Node::Not { .. }
        | Node::Mux { .. }
        | Node::Cat { .. }
        | Node::Select { .. }
        | Node::Read { .. }
        | Node::InstOut { .. }
        | Node::Op { .. } => push_wire(out, name, row.width),
    }
}

/// The declaration of a node that is no output.
fn push_inner(
    out: &mut Vec<u8>,
    names: &ModuleNames,
    marks: &[bool],
    place: usize,
    row: &NodeRow,
) -> Result<(), NoMemory>
    ensures { OnOk result (out.new.items ≡ out.old.items ++ (if is_unmarked marks.now (place, row.now) then (declaration (name_by names.now) (place, row.now) ++ 10 ∷ []) else [])) }
{
    if is_marked(marks, place) {
        Ok(())
    } else {
        push_declaration(out, names, place, row)
    }
}

/// The declarations of the nodes without a mark, of which the first has this place.
pub(crate) fn push_declarations(
    out: &mut Vec<u8>,
    names: &ModuleNames,
    marks: &[bool],
    first: usize,
    rows: &[NodeRow],
) -> Result<(), NoMemory>
    requires { first + length rows.now < 2 ^ 64 }
    ensures { OnOk result (out.new.items ≡ out.old.items ++ lines_text (map (declaration (name_by names.now)) (filter (is_unmarked marks.now) (enumerate_from first rows.now)))) }
{
    for (k, row) in rows.iter().enumerate() {
        push_inner(out, names, marks, first + k, row)?;
    }
    Ok(())
}

#[tactic(auto, unfolding(crate::specs::Templates::memory_declaration))]
fn push_memory(
    out: &mut Vec<u8>,
    names: &ModuleNames,
    place: usize,
    memory: &Memory,
) -> Result<(), NoMemory>
    ensures { OnOk result (out.new.items ≡ out.old.items ++ (memory_declaration (name_by names.now) (place, memory.now) ++ 10 ∷ [])) }
{
    push(out, b"  reg ")?;
    push_range(out, memory.width)?;
    push(out, b" ")?;
    push(out, names.memory(place))?;
    push(out, b" [0:")?;
    push_decimal(out, memory.size.saturating_sub(1))?;
    push(out, b"];\n")
}

/// The declarations of the memories.
pub(crate) fn push_memories(
    out: &mut Vec<u8>,
    names: &ModuleNames,
    memories: &[Memory],
) -> Result<(), NoMemory>
    ensures { OnOk result (out.new.items ≡ out.old.items ++ lines_text (map (memory_declaration (name_by names.now)) (enumerate_from 0 memories.now))) }
{
    for (place, memory) in memories.iter().enumerate() {
        push_memory(out, names, place, memory)?;
    }
    Ok(())
}
