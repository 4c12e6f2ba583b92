//! The header of a module.
ghost use Rattle.std.specs.Prelude.{◌≡◌, ◌++◌, ◌∷◌, [], OnOk, map, length, codes, if◌then◌else◌};
ghost use Rattle.std.specs.List.{enumerate_from, zip};
ghost use Rattle.hc_bits.specs.Digits.{lines_text};
ghost use Rattle.hc_naming.specs.NameTable.{name_by};
ghost use Rattle.hc_verilog.specs.Templates.{input_line, output_line, with_commas, header};

use crate::text::{push, push_range};
use hc_fault::NoMemory;
use hc_naming::ModuleNames;
use hc_signal::{Circuit, NodeId, Port};

#[tactic(auto, unfolding(crate::specs::Templates::input_line))]
fn push_input(
    out: &mut Vec<u8>,
    names: &ModuleNames,
    place: usize,
    port: &Port,
) -> Result<(), NoMemory>
    ensures { OnOk result (out.new.items ≡ out.old.items ++ (input_line (name_by names.now) (place, port.now) ++ 10 ∷ [])) }
{
    push(out, b"  input ")?;
    push_range(out, port.width)?;
    push(out, b" ")?;
    push(out, names.node(place))?;
    push(out, b",\n")
}

fn push_inputs(out: &mut Vec<u8>, names: &ModuleNames, ports: &[Port]) -> Result<(), NoMemory>
    ensures { OnOk result (out.new.items ≡ out.old.items ++ lines_text (map (input_line (name_by names.now)) (enumerate_from 0 ports.now))) }
{
    for (place, port) in ports.iter().enumerate() {
        push_input(out, names, place, port)?;
    }
    Ok(())
}

/// The end of a line, with a comma where more lines follow.
pub(crate) fn push_line_end(out: &mut Vec<u8>, more: bool) -> Result<(), NoMemory>
    ensures { OnOk result (out.new.items ≡ out.old.items ++ (if more then codes ",\n" else codes "\n")) }
{
    push(out, if more { b",\n" } else { b"\n" })
}

#[tactic(auto, unfolding(crate::specs::Templates::output_line))]
fn push_output(
    out: &mut Vec<u8>,
    names: &ModuleNames,
    id: NodeId,
    port: &Port,
    more: bool,
) -> Result<(), NoMemory>
    ensures { OnOk result (out.new.items ≡ out.old.items ++ (output_line (name_by names.now) (id, port.now) ++ (if more then codes ",\n" else codes "\n"))) }
{
    push(out, b"  output ")?;
    push_range(out, port.width)?;
    push(out, b" ")?;
    push(out, names.operand(id))?;
    push_line_end(out, more)
}

fn push_outputs(
    out: &mut Vec<u8>,
    names: &ModuleNames,
    ids: &[NodeId],
    ports: &[Port],
) -> Result<(), NoMemory>
    requires { length ids.now ≡ length ports.now }
    ensures { OnOk result (out.new.items ≡ out.old.items ++ lines_text (with_commas (map (output_line (name_by names.now)) (zip ids.now ports.now)))) }
{
    for (k, port) in ports.iter().enumerate() {
        let more = k + 1 < ports.len();
        push_output(out, names, ids[k], port, more)?;
    }
    Ok(())
}

fn push_title(out: &mut Vec<u8>, title: &[u8]) -> Result<(), NoMemory>
    ensures { OnOk result (out.new.items ≡ out.old.items ++ (codes "module " ++ title.now ++ codes " (\n  input clock,\n")) }
{
    push(out, b"module ")?;
    push(out, title)?;
    push(out, b" (\n  input clock,\n")
}

/// The header of the module of this title.
pub(crate) fn push_header(
    out: &mut Vec<u8>,
    circuit: &Circuit,
    names: &ModuleNames,
    title: &[u8],
) -> Result<(), NoMemory>
    requires { length circuit.now.outputs ≡ length circuit.now.ports.outputs }
    ensures { OnOk result (out.new.items ≡ out.old.items ++ lines_text (header (name_by names.now) circuit.now title.now)) }
{
    let ports = circuit.ports();
    push_title(out, title)?;
    push_inputs(out, names, ports.inputs.as_slice())?;
    push_outputs(out, names, circuit.outputs(), ports.outputs.as_slice())?;
    push(out, b");\n")
}
