//! The write ports of memories.
ghost use Rattle.std.specs.Prelude.{◌≡◌, ◌++◌, ◌∷◌, [], OnOk, map, codes, flat_map};
ghost use Rattle.std.specs.List.{enumerate_from};
ghost use Rattle.hc_bits.specs.Digits.{lines_text};
ghost use Rattle.hc_naming.specs.NameTable.{name_by};
ghost use Rattle.hc_verilog.specs.Templates.{clocked, write_line, memory_lines};

use crate::items::push_word;
use crate::text::push;
use hc_fault::NoMemory;
use hc_naming::ModuleNames;
use hc_signal::{Memory, WritePort};

#[tactic(auto, unfolding(crate::specs::Templates::write_line))]
fn push_write(
    out: &mut Vec<u8>,
    names: &ModuleNames,
    memory: usize,
    port: &WritePort,
) -> Result<(), NoMemory>
    ensures { OnOk result (out.new.items ≡ out.old.items ++ (write_line (name_by names.now) memory port.now ++ 10 ∷ [])) }
{
    push(out, b"    if (")?;
    push(out, names.operand(port.enable))?;
    push(out, b") ")?;
    push_word(out, names, memory, port.addr)?;
    push(out, b" <= ")?;
    push(out, names.operand(port.value))?;
    push(out, b";\n")
}

fn push_writes(
    out: &mut Vec<u8>,
    names: &ModuleNames,
    memory: usize,
    ports: &[WritePort],
) -> Result<(), NoMemory>
    ensures { OnOk result (out.new.items ≡ out.old.items ++ lines_text (map (write_line (name_by names.now) memory) ports.now)) }
{
    for port in ports {
        push_write(out, names, memory, port)?;
    }
    Ok(())
}

/// The block of some write ports.
fn push_block(
    out: &mut Vec<u8>,
    names: &ModuleNames,
    memory: usize,
    ports: &[WritePort],
) -> Result<(), NoMemory>
    ensures { OnOk result (out.new.items ≡ out.old.items ++ lines_text (clocked (map (write_line (name_by names.now) memory) ports.now))) }
{
    push(out, b"  always @(posedge clock) begin\n")?;
    push_writes(out, names, memory, ports)?;
    push(out, b"  end\n")
}

/// The block of a memory that has write ports.
fn push_memory(
    out: &mut Vec<u8>,
    names: &ModuleNames,
    place: usize,
    memory: &Memory,
) -> Result<(), NoMemory>
    ensures { OnOk result (out.new.items ≡ out.old.items ++ lines_text (memory_lines (name_by names.now) (place, memory.now))) }
{
    let ports = memory.writes.as_slice();
    if ports.is_empty() {
        Ok(())
    } else {
        push_block(out, names, place, ports)
    }
}

/// The blocks of the memories.
pub(crate) fn push_memory_blocks(
    out: &mut Vec<u8>,
    names: &ModuleNames,
    memories: &[Memory],
) -> Result<(), NoMemory>
    ensures { OnOk result (out.new.items ≡ out.old.items ++ lines_text (flat_map (memory_lines (name_by names.now)) (enumerate_from 0 memories.now))) }
{
    for (place, memory) in memories.iter().enumerate() {
        push_memory(out, names, place, memory)?;
    }
    Ok(())
}
