//! The instances of a module.
ghost use Rattle.std.specs.Prelude.{◌≡◌, ◌+◌, ◌^◌, ◌<◌, ◌++◌, ◌∷◌, [], OnOk, IfOk, map, length, codes, ℕ, Some, if◌then◌else◌};
ghost use Rattle.std.specs.List.{enumerate_from, zip};
ghost use Rattle.hc_bits.specs.Digits.{lines_text};
ghost use Rattle.hc_naming.specs.NameTable.{name_by};
ghost use Rattle.hc_verilog.specs.Results.{result_in, result_name, AreResults};
ghost use Rattle.hc_verilog.specs.ModuleText.{module_of};
ghost use Rattle.hc_verilog.specs.Templates.{with_commas, is_output_of, connection_line, result_line, instance_lines, all_instance_lines};

use crate::header::push_line_end;
use crate::text::push;
use hc_canon::EntryId;
use hc_fault::NoMemory;
use hc_names::Names;
use hc_naming::ModuleNames;
use hc_signal::{Instance, Node, NodeId, NodeRow, Port};
use std::alloc::Global;
use std::collections::HashMap;

/// The nodes of the instances' outputs: by instance and port, the place of the node.
pub(crate) type Results = HashMap<(usize, usize), usize>;

/// The outputs of instances among the nodes, of which the first has this place.
pub(crate) fn results_of(alloc: Global, first: usize, rows: &[NodeRow]) -> Result<Results, NoMemory>
    requires { first + length rows.now < 2 ^ 64 }
    ensures { IfOk result (λ results. AreResults (enumerate_from first rows.now) results.entries) }
{
    let mut results = HashMap::new(alloc);
    for k in (0..rows.len()).rev() {
        add_result(&mut results, first + k, &rows[k].node)?;
    }
    Ok(results)
}

/// Adds a node that is the output of an instance.
fn add_result(results: &mut Results, place: usize, node: &Node) -> Result<(), NoMemory>
    ensures { OnOk result ((i port : ℕ) → result_in results.new.entries i port ≡ (if is_output_of i port node.now then Some place else result_in results.old.entries i port)) }
{
    if let Node::InstOut { inst, port } = node {
        results.insert((inst.0 as usize, *port as usize), place)?;
    }
    Ok(())
}

/// The name of the node of an instance's output; empty where it has none.
#[tactic(auto, unfolding(crate::specs::Results::result_name))]
fn name_of_result<'a>(
    names: &'a ModuleNames,
    results: &Results,
    instance: usize,
    port: usize,
) -> &'a [u8]
    ensures { result.now ≡ result_name (name_by names.now) results.now.entries instance port }
{
    match results.get(&(instance, port)) {
        Some(place) => names.node(*place),
        None => b"",
    }
}

#[tactic(auto, unfolding(crate::specs::Templates::result_line))]
fn push_result(
    out: &mut Vec<u8>,
    names: &ModuleNames,
    results: &Results,
    instance: usize,
    number: usize,
    port: &Port,
    more: bool,
) -> Result<(), NoMemory>
    ensures { OnOk result (out.new.items ≡ out.old.items ++ (result_line (result_name (name_by names.now) results.now.entries instance) (number, port.now) ++ (if more then codes ",\n" else codes "\n"))) }
{
    push(out, b"    .")?;
    push(out, port.name.bytes())?;
    push(out, b"(")?;
    push(out, name_of_result(names, results, instance, number))?;
    push(out, b")")?;
    push_line_end(out, more)
}

fn push_results(
    out: &mut Vec<u8>,
    names: &ModuleNames,
    results: &Results,
    instance: usize,
    ports: &[Port],
) -> Result<(), NoMemory>
    ensures { OnOk result (out.new.items ≡ out.old.items ++ lines_text (with_commas (map (result_line (result_name (name_by names.now) results.now.entries instance)) (enumerate_from 0 ports.now)))) }
{
    for (number, port) in ports.iter().enumerate() {
        let more = number + 1 < ports.len();
        push_result(out, names, results, instance, number, port, more)?;
    }
    Ok(())
}

#[tactic(auto, unfolding(crate::specs::Templates::connection_line))]
fn push_connection(
    out: &mut Vec<u8>,
    names: &ModuleNames,
    port: &Port,
    id: NodeId,
) -> Result<(), NoMemory>
    ensures { OnOk result (out.new.items ≡ out.old.items ++ (connection_line (name_by names.now) (port.now, id) ++ 10 ∷ [])) }
{
    push(out, b"    .")?;
    push(out, port.name.bytes())?;
    push(out, b"(")?;
    push(out, names.operand(id))?;
    push(out, b"),\n")
}

fn push_connections(
    out: &mut Vec<u8>,
    names: &ModuleNames,
    ports: &[Port],
    ids: &[NodeId],
) -> Result<(), NoMemory>
    ensures { OnOk result (out.new.items ≡ out.old.items ++ lines_text (map (connection_line (name_by names.now)) (zip ports.now ids.now))) }
{
    for (port, id) in ports.iter().zip(ids.iter()) {
        push_connection(out, names, port, *id)?;
    }
    Ok(())
}

fn push_start(out: &mut Vec<u8>, title: &[u8], name: &[u8]) -> Result<(), NoMemory>
    ensures { OnOk result (out.new.items ≡ out.old.items ++ (codes "  " ++ title.now ++ codes " " ++ name.now ++ codes " (\n    .clock(clock),\n")) }
{
    push(out, b"  ")?;
    push(out, title)?;
    push(out, b" ")?;
    push(out, name)?;
    push(out, b" (\n    .clock(clock),\n")
}

/// The name of the module of an entry; empty where it has none.
#[tactic(auto, unfolding(crate::specs::ModuleText::module_of))]
fn module_name<'a>(modules: &'a Names, kids: &[EntryId], place: usize) -> &'a [u8]
    ensures { result.now ≡ module_of modules.now kids.now place }
{
    match kids.get(place) {
        Some(kid) => match modules.of(*kid) {
            Some(name) => name.bytes(),
            None => b"",
        },
        None => b"",
    }
}

fn push_instance(
    out: &mut Vec<u8>,
    names: &ModuleNames,
    results: &Results,
    title: &[u8],
    place: usize,
    instance: &Instance,
) -> Result<(), NoMemory>
    ensures { OnOk result (out.new.items ≡ out.old.items ++ lines_text (instance_lines (name_by names.now) title.now (result_name (name_by names.now) results.now.entries place) (place, instance.now))) }
{
    let ports = &instance.ports;
    push_start(out, title, names.instance(place))?;
    push_connections(
        out,
        names,
        ports.inputs.as_slice(),
        instance.conns.as_slice(),
    )?;
    push_results(out, names, results, place, ports.outputs.as_slice())?;
    push(out, b"  );\n")
}

/// The instances.
#[tactic(auto, unfolding(crate::specs::Templates::all_instance_lines))]
pub(crate) fn push_instances(
    out: &mut Vec<u8>,
    names: &ModuleNames,
    results: &Results,
    modules: &Names,
    kids: &[EntryId],
    instances: &[Instance],
) -> Result<(), NoMemory>
    ensures { OnOk result (out.new.items ≡ out.old.items ++ lines_text (all_instance_lines (name_by names.now) (module_of modules.now kids.now) (result_name (name_by names.now) results.now.entries) (enumerate_from 0 instances.now))) }
{
    for (place, instance) in instances.iter().enumerate() {
        let title = module_name(modules, kids, place);
        push_instance(out, names, results, title, place, instance)?;
    }
    Ok(())
}
