//! The items of a module: what each node is.
ghost use Rattle.std.specs.Prelude.{◌≡◌, ◌+◌, ◌^◌, ◌<◌, ◌++◌, ◌∷◌, [], OnOk, map, length, codes, decimal, flat_map, nat_le, if◌then◌else◌};
ghost use Rattle.std.specs.List.{enumerate_from};
ghost use Rattle.hc_bits.specs.Catalogue.{operation_name};
ghost use Rattle.hc_bits.specs.Digits.{lines_text};
ghost use Rattle.hc_naming.specs.ModuleNames.{name_of_id};
ghost use Rattle.hc_naming.specs.NameTable.{name_by};
ghost use Rattle.hc_verilog.specs.Templates.{width_at, size_at, argument_width, sign_of, assign, literal, operand_text, binary_text, tested_case, mux_text, bit_range, comma_list, word_text, read_text, guard, register_lines, clocked, pins, operation_line, item};

use crate::text::{push, push_decimal, push_literal};
use hc_bits::{Bits, OpKind};
use hc_fault::NoMemory;
use hc_naming::ModuleNames;
use hc_signal::{Circuit, Node, NodeId, NodeRow, Op2};

/// The width of a node.
#[tactic(auto, unfolding(crate::specs::Templates::width_at))]
fn width_of(circuit: &Circuit, id: NodeId) -> u32
    ensures { result ≡ width_at circuit.now id }
{
    circuit
        .nodes()
        .get(id.0 as usize)
        .map_or(0, |row| row.width)
}

/// The size of a memory.
#[tactic(auto, unfolding(crate::specs::Templates::size_at))]
fn size_of(circuit: &Circuit, place: usize) -> u32
    ensures { result ≡ size_at circuit.now place }
{
    circuit
        .memories()
        .get(place)
        .map_or(0, |memory| memory.size)
}

/// The beginning of an assignment.
fn push_target(out: &mut Vec<u8>, target: &[u8]) -> Result<(), NoMemory>
    ensures { OnOk result (out.new.items ≡ out.old.items ++ (codes "  assign " ++ target.now ++ codes " = ")) }
{
    push(out, b"  assign ")?;
    push(out, target)?;
    push(out, b" = ")
}

#[tactic(auto, unfolding(crate::specs::Templates::assign))]
fn push_wire(
    out: &mut Vec<u8>,
    names: &ModuleNames,
    target: &[u8],
    driver: NodeId,
) -> Result<(), NoMemory>
    ensures { OnOk result (out.new.items ≡ out.old.items ++ lines_text (assign target.now (name_of_id (name_by names.now) driver) ∷ [])) }
{
    push_target(out, target)?;
    push(out, names.operand(driver))?;
    push(out, b";\n")
}

#[tactic(auto, unfolding(crate::specs::Templates::assign))]
fn push_constant(out: &mut Vec<u8>, target: &[u8], width: u32, value: Bits) -> Result<(), NoMemory>
    ensures { OnOk result (out.new.items ≡ out.old.items ++ lines_text (assign target.now (literal width value.value) ∷ [])) }
{
    push_target(out, target)?;
    push_literal(out, width, value.value())?;
    push(out, b";\n")
}

#[tactic(auto, unfolding(crate::specs::Templates::sign_of))]
fn sign(op: Op2) -> &'static [u8]
    ensures { result.now ≡ sign_of op }
{
    match op {
        Op2::Add => b" + ",
        Op2::Sub => b" - ",
        Op2::Mulu | Op2::Muls => b" * ",
        Op2::And => b" & ",
        Op2::Or => b" | ",
        Op2::Xor => b" ^ ",
        Op2::Eq => b" == ",
        Op2::Lt => b" < ",
    }
}

/// An operand of an operator.
#[tactic(auto, unfolding(crate::specs::Templates::operand_text))]
fn push_operand(out: &mut Vec<u8>, names: &ModuleNames, op: Op2, id: NodeId) -> Result<(), NoMemory>
    ensures { OnOk result (out.new.items ≡ out.old.items ++ operand_text (name_by names.now) op id) }
{
    match op {
        Op2::Muls => {
            push(out, b"$signed(")?;
            push(out, names.operand(id))?;
            push(out, b")")
        }
        Op2::Add | Op2::Sub | Op2::Mulu | Op2::And | Op2::Or | Op2::Xor | Op2::Eq | Op2::Lt => push(
            out,
            names.operand(id),
        ),
    }
}

/// Two operands with the operator between them.
#[tactic(auto, unfolding(crate::specs::Templates::binary_text))]
fn push_operands(
    out: &mut Vec<u8>,
    names: &ModuleNames,
    op: Op2,
    a: NodeId,
    b: NodeId,
) -> Result<(), NoMemory>
    ensures { OnOk result (out.new.items ≡ out.old.items ++ binary_text (name_by names.now) op a b) }
{
    push_operand(out, names, op, a)?;
    push(out, sign(op))?;
    push_operand(out, names, op, b)
}

#[tactic(auto, unfolding(crate::specs::Templates::assign))]
fn push_binary(
    out: &mut Vec<u8>,
    names: &ModuleNames,
    target: &[u8],
    op: Op2,
    a: NodeId,
    b: NodeId,
) -> Result<(), NoMemory>
    ensures { OnOk result (out.new.items ≡ out.old.items ++ lines_text (assign target.now (binary_text (name_by names.now) op a b) ∷ [])) }
{
    push_target(out, target)?;
    push_operands(out, names, op, a, b)?;
    push(out, b";\n")
}

#[tactic(auto, unfolding(crate::specs::Templates::assign))]
fn push_not(
    out: &mut Vec<u8>,
    names: &ModuleNames,
    target: &[u8],
    a: NodeId,
) -> Result<(), NoMemory>
    ensures { OnOk result (out.new.items ≡ out.old.items ++ lines_text (assign target.now (codes "~" ++ name_of_id (name_by names.now) a) ∷ [])) }
{
    push_target(out, target)?;
    push(out, b"~")?;
    push(out, names.operand(a))?;
    push(out, b";\n")
}

/// A range of bits.
#[tactic(auto, unfolding(crate::specs::Templates::bit_range))]
fn push_bits(out: &mut Vec<u8>, hi: u32, lo: u32) -> Result<(), NoMemory>
    ensures { OnOk result (out.new.items ≡ out.old.items ++ bit_range hi lo) }
{
    push(out, b"[")?;
    push_decimal(out, hi)?;
    push(out, b":")?;
    push_decimal(out, lo)?;
    push(out, b"]")
}

#[tactic(auto, unfolding(crate::specs::Templates::assign))]
fn push_select(
    out: &mut Vec<u8>,
    names: &ModuleNames,
    target: &[u8],
    a: NodeId,
    hi: u32,
    lo: u32,
) -> Result<(), NoMemory>
    ensures { OnOk result (out.new.items ≡ out.old.items ++ lines_text (assign target.now (name_of_id (name_by names.now) a ++ bit_range hi lo) ∷ [])) }
{
    push_target(out, target)?;
    push(out, names.operand(a))?;
    push_bits(out, hi, lo)?;
    push(out, b";\n")
}

/// Whether each address of this width is below the size.
#[tactic(auto, using(crate::proofs::Texts::many_words))]
fn covers(addr_width: u32, size: u32) -> bool
    ensures { result ≡ nat_le (2 ^ addr_width) size }
{
    addr_width < 32 && 1 << addr_width <= size
}

/// A word of a memory.
#[tactic(auto, unfolding(crate::specs::Templates::word_text))]
pub(crate) fn push_word(
    out: &mut Vec<u8>,
    names: &ModuleNames,
    memory: usize,
    addr: NodeId,
) -> Result<(), NoMemory>
    ensures { OnOk result (out.new.items ≡ out.old.items ++ word_text (name_by names.now) memory addr) }
{
    push(out, names.memory(memory))?;
    push(out, b"[")?;
    push(out, names.operand(addr))?;
    push(out, b"]")
}

/// A word of a memory, or 0 where the address lies past the memory's end.
fn push_tested_word(
    out: &mut Vec<u8>,
    names: &ModuleNames,
    width: u32,
    addr_width: u32,
    size: u32,
    memory: usize,
    addr: NodeId,
) -> Result<(), NoMemory>
    ensures { OnOk result (out.new.items ≡ out.old.items ++ (name_of_id (name_by names.now) addr ++ codes " < " ++ literal addr_width size ++ codes " ? " ++ word_text (name_by names.now) memory addr ++ codes " : " ++ literal width 0)) }
{
    push(out, names.operand(addr))?;
    push(out, b" < ")?;
    push_literal(out, addr_width, u128::from(size))?;
    push(out, b" ? ")?;
    push_word(out, names, memory, addr)?;
    push(out, b" : ")?;
    push_literal(out, width, 0)
}

/// What a read of a memory gives.
#[tactic(auto, unfolding(crate::specs::Templates::read_text))]
fn push_read_value(
    out: &mut Vec<u8>,
    names: &ModuleNames,
    width: u32,
    addr_width: u32,
    size: u32,
    memory: usize,
    addr: NodeId,
) -> Result<(), NoMemory>
    ensures { OnOk result (out.new.items ≡ out.old.items ++ read_text (name_by names.now) width addr_width size memory addr) }
{
    if covers(addr_width, size) {
        push_word(out, names, memory, addr)
    } else {
        push_tested_word(out, names, width, addr_width, size, memory, addr)
    }
}

#[tactic(auto, unfolding(crate::specs::Templates::assign))]
fn push_read(
    out: &mut Vec<u8>,
    circuit: &Circuit,
    names: &ModuleNames,
    target: &[u8],
    width: u32,
    memory: usize,
    addr: NodeId,
) -> Result<(), NoMemory>
    ensures { OnOk result (out.new.items ≡ out.old.items ++ lines_text (assign target.now (read_text (name_by names.now) width (width_at circuit.now addr) (size_at circuit.now memory) memory addr) ∷ [])) }
{
    let addr_width = width_of(circuit, addr);
    let size = size_of(circuit, memory);
    push_target(out, target)?;
    push_read_value(out, names, width, addr_width, size, memory, addr)?;
    push(out, b";\n")
}

/// A case of a mux, with the test of the selector for its number.
#[tactic(auto, unfolding(crate::specs::Templates::tested_case))]
fn push_tested_case(
    out: &mut Vec<u8>,
    names: &ModuleNames,
    sel_width: u32,
    sel: NodeId,
    number: usize,
    case: NodeId,
) -> Result<(), NoMemory>
    ensures { OnOk result (out.new.items ≡ out.old.items ++ tested_case (name_by names.now) sel_width sel number case) }
{
    push(out, names.operand(sel))?;
    push(out, b" == ")?;
    push_literal(out, sel_width, number as u128)?;
    push(out, b" ? ")?;
    push(out, names.operand(case))?;
    push(out, b" : ")
}

/// A case of a mux, with its test where more cases follow.
fn push_case(
    out: &mut Vec<u8>,
    names: &ModuleNames,
    sel_width: u32,
    sel: NodeId,
    number: usize,
    case: NodeId,
    more: bool,
) -> Result<(), NoMemory>
    ensures { OnOk result (out.new.items ≡ out.old.items ++ (if more then tested_case (name_by names.now) sel_width sel number case else name_of_id (name_by names.now) case)) }
{
    if more {
        push_tested_case(out, names, sel_width, sel, number, case)
    } else {
        push(out, names.operand(case))
    }
}

/// The cases of a mux, each but the last with its test.
fn push_cases(
    out: &mut Vec<u8>,
    names: &ModuleNames,
    sel_width: u32,
    sel: NodeId,
    cases: &[NodeId],
) -> Result<(), NoMemory>
    ensures { OnOk result (out.new.items ≡ out.old.items ++ mux_text (name_by names.now) sel_width sel 0 cases.now) }
{
    for (number, case) in cases.iter().enumerate() {
        let more = number + 1 < cases.len();
        push_case(out, names, sel_width, sel, number, *case, more)?;
    }
    Ok(())
}

#[tactic(auto, unfolding(crate::specs::Templates::assign))]
fn push_mux(
    out: &mut Vec<u8>,
    circuit: &Circuit,
    names: &ModuleNames,
    target: &[u8],
    sel: NodeId,
    cases: &[NodeId],
) -> Result<(), NoMemory>
    ensures { OnOk result (out.new.items ≡ out.old.items ++ lines_text (assign target.now (mux_text (name_by names.now) (width_at circuit.now sel) sel 0 cases.now) ∷ [])) }
{
    push_target(out, target)?;
    push_cases(out, names, width_of(circuit, sel), sel, cases)?;
    push(out, b";\n")
}

/// A part of a concatenation, with a comma where more parts follow.
fn push_part(
    out: &mut Vec<u8>,
    names: &ModuleNames,
    part: NodeId,
    more: bool,
) -> Result<(), NoMemory>
    ensures { OnOk result (out.new.items ≡ out.old.items ++ (name_of_id (name_by names.now) part ++ (if more then codes ", " else []))) }
{
    push(out, names.operand(part))?;
    push(out, if more { b", " } else { b"" })
}

/// The parts of a concatenation.
fn push_parts(out: &mut Vec<u8>, names: &ModuleNames, parts: &[NodeId]) -> Result<(), NoMemory>
    ensures { OnOk result (out.new.items ≡ out.old.items ++ comma_list (map (name_of_id (name_by names.now)) parts.now)) }
{
    for (number, part) in parts.iter().enumerate() {
        let more = number + 1 < parts.len();
        push_part(out, names, *part, more)?;
    }
    Ok(())
}

#[tactic(auto, unfolding(crate::specs::Templates::assign))]
fn push_cat(
    out: &mut Vec<u8>,
    names: &ModuleNames,
    target: &[u8],
    parts: &[NodeId],
) -> Result<(), NoMemory>
    ensures { OnOk result (out.new.items ≡ out.old.items ++ lines_text (assign target.now (codes "{" ++ comma_list (map (name_of_id (name_by names.now)) parts.now) ++ codes "}") ∷ [])) }
{
    push_target(out, target)?;
    push(out, b"{")?;
    push_parts(out, names, parts)?;
    push(out, b"};\n")
}

/// The test of an enable, where there is one.
#[tactic(auto, unfolding(crate::specs::Templates::guard))]
fn push_guard(
    out: &mut Vec<u8>,
    names: &ModuleNames,
    enable: Option<NodeId>,
) -> Result<(), NoMemory>
    ensures { OnOk result (out.new.items ≡ out.old.items ++ guard (name_by names.now) enable) }
{
    match enable {
        None => Ok(()),
        Some(id) => {
            push(out, b"if (")?;
            push(out, names.operand(id))?;
            push(out, b") ")
        }
    }
}

/// The update of a register from its next value.
fn push_update(
    out: &mut Vec<u8>,
    names: &ModuleNames,
    target: &[u8],
    enable: Option<NodeId>,
    next: NodeId,
) -> Result<(), NoMemory>
    ensures { OnOk result (out.new.items ≡ out.old.items ++ (guard (name_by names.now) enable ++ target.now ++ codes " <= " ++ name_of_id (name_by names.now) next ++ codes ";\n")) }
{
    push_guard(out, names, enable)?;
    push(out, target)?;
    push(out, b" <= ")?;
    push(out, names.operand(next))?;
    push(out, b";\n")
}

/// The line that clears a register.
fn push_clear(
    out: &mut Vec<u8>,
    names: &ModuleNames,
    target: &[u8],
    clear: NodeId,
    value: Bits,
) -> Result<(), NoMemory>
    ensures { OnOk result (out.new.items ≡ out.old.items ++ (codes "    if (" ++ name_of_id (name_by names.now) clear ++ codes ") " ++ target.now ++ codes " <= " ++ literal value.width value.value ++ codes ";\n")) }
{
    push(out, b"    if (")?;
    push(out, names.operand(clear))?;
    push(out, b") ")?;
    push(out, target)?;
    push(out, b" <= ")?;
    push_literal(out, value.width(), value.value())?;
    push(out, b";\n")
}

#[tactic(auto, unfolding(crate::specs::Templates::register_lines))]
fn push_register_lines(
    out: &mut Vec<u8>,
    names: &ModuleNames,
    target: &[u8],
    next: NodeId,
    enable: Option<NodeId>,
    clear: Option<(NodeId, Bits)>,
) -> Result<(), NoMemory>
    ensures { OnOk result (out.new.items ≡ out.old.items ++ lines_text (register_lines (name_by names.now) target.now next enable clear)) }
{
    match clear {
        None => {
            push(out, b"    ")?;
            push_update(out, names, target, enable, next)
        }
        Some((id, value)) => {
            push_clear(out, names, target, id, value)?;
            push(out, b"    else ")?;
            push_update(out, names, target, enable, next)
        }
    }
}

fn push_register(
    out: &mut Vec<u8>,
    names: &ModuleNames,
    target: &[u8],
    next: NodeId,
    enable: Option<NodeId>,
    clear: Option<(NodeId, Bits)>,
) -> Result<(), NoMemory>
    ensures { OnOk result (out.new.items ≡ out.old.items ++ lines_text (clocked (register_lines (name_by names.now) target.now next enable clear))) }
{
    push(out, b"  always @(posedge clock) begin\n")?;
    push_register_lines(out, names, target, next, enable, clear)?;
    push(out, b"  end\n")
}

/// The arguments of an operation.
#[tactic(auto, unfolding(crate::specs::Templates::pins))]
fn push_pins(out: &mut Vec<u8>, names: &ModuleNames, args: &[NodeId]) -> Result<(), NoMemory>
    ensures { OnOk result (out.new.items ≡ out.old.items ++ pins (name_by names.now) args.now) }
{
    match args {
        [] => Ok(()),
        [a] => {
            push(out, b".a(")?;
            push(out, names.operand(*a))?;
            push(out, b"), ")
        }
        [a, b, ..] => {
            push(out, b".a(")?;
            push(out, names.operand(*a))?;
            push(out, b"), .b(")?;
            push(out, names.operand(*b))?;
            push(out, b"), ")
        }
    }
}

/// The width of an operation's arguments.
#[tactic(auto, unfolding(crate::specs::Templates::argument_width))]
fn width_of_arguments(circuit: &Circuit, args: &[NodeId]) -> u32
    ensures { result ≡ argument_width circuit.now args.now }
{
    match args {
        [] => 0,
        [a, ..] => width_of(circuit, *a),
    }
}

/// The module of an operation.
fn push_operation_name(out: &mut Vec<u8>, kind: OpKind, width: u32) -> Result<(), NoMemory>
    ensures { OnOk result (out.new.items ≡ out.old.items ++ (codes "  op_" ++ operation_name kind ++ codes " #(.W(" ++ decimal width ++ codes ")) ")) }
{
    push(out, b"  op_")?;
    push(out, kind.name())?;
    push(out, b" #(.W(")?;
    push_decimal(out, width)?;
    push(out, b")) ")
}

/// The names of an operation's cell and of what is connected to it.
fn push_connections(
    out: &mut Vec<u8>,
    names: &ModuleNames,
    args: &[NodeId],
    cell: &[u8],
    target: &[u8],
) -> Result<(), NoMemory>
    ensures { OnOk result (out.new.items ≡ out.old.items ++ (cell.now ++ codes " (" ++ pins (name_by names.now) args.now ++ codes ".y(" ++ target.now ++ codes "));\n")) }
{
    push(out, cell)?;
    push(out, b" (")?;
    push_pins(out, names, args)?;
    push(out, b".y(")?;
    push(out, target)?;
    push(out, b"));\n")
}

#[tactic(auto, unfolding(crate::specs::Templates::operation_line))]
fn push_operation(
    out: &mut Vec<u8>,
    names: &ModuleNames,
    kind: OpKind,
    width: u32,
    args: &[NodeId],
    cell: &[u8],
    target: &[u8],
) -> Result<(), NoMemory>
    ensures { OnOk result (out.new.items ≡ out.old.items ++ lines_text (operation_line (name_by names.now) kind width args.now cell.now target.now ∷ [])) }
{
    push_operation_name(out, kind, width)?;
    push_connections(out, names, args, cell, target)
}

/// What the node at a place is.
#[tactic(auto, unfolding(crate::specs::Templates::node_lines, crate::specs::Templates::item))]
fn push_item(
    out: &mut Vec<u8>,
    circuit: &Circuit,
    names: &ModuleNames,
    place: usize,
    row: &NodeRow,
) -> Result<(), NoMemory>
    ensures { OnOk result (out.new.items ≡ out.old.items ++ lines_text (item (name_by names.now) circuit.now (place, row.now))) }
{
    let target = names.node(place);
    match &row.node {
        Node::Input { .. } | Node::Wire { driver: None } | Node::InstOut { .. } => Ok(()),
        Node::Wire {
            driver: Some(driver),
        } => push_wire(out, names, target, *driver),
        Node::Const { value } => push_constant(out, target, row.width, *value),
        Node::Two { op, a, b } => push_binary(out, names, target, *op, *a, *b),
        Node::Not { a } => push_not(out, names, target, *a),
        Node::Mux { sel, cases } => {
            push_mux(out, circuit, names, target, *sel, cases.as_slice())
        }
        Node::Cat { parts } => push_cat(out, names, target, parts.as_slice()),
        Node::Select { a, hi, lo } => push_select(out, names, target, *a, *hi, *lo),
        Node::Reg {
            next,
            enable,
            clear,
            ..
        } => push_register(out, names, target, *next, *enable, *clear),
        Node::Read { mem, addr } => {
            let memory = mem.0 as usize;
            push_read(out, circuit, names, target, row.width, memory, *addr)
        }
        Node::Op { kind, args } => {
            let args = args.as_slice();
            let width = width_of_arguments(circuit, args);
            push_operation(out, names, *kind, width, args, names.cell(place), target)
        }
    }
}

/// What the nodes are, of which the first has this place.
pub(crate) fn push_items(
    out: &mut Vec<u8>,
    circuit: &Circuit,
    names: &ModuleNames,
    first: usize,
    rows: &[NodeRow],
) -> Result<(), NoMemory>
    requires { first + length rows.now < 2 ^ 64 }
    ensures { OnOk result (out.new.items ≡ out.old.items ++ lines_text (flat_map (item (name_by names.now) circuit.now) (enumerate_from first rows.now))) }
{
    for (k, row) in rows.iter().enumerate() {
        push_item(out, circuit, names, first + k, row)?;
    }
    Ok(())
}
