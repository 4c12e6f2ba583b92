//! The parameters and heads of a circuit.
ghost use Rattle.std.specs.Prelude.{◌≡◌, ◌++◌, ◌∷◌, [], length, if◌then◌else◌, IfErr, IfOk, OnOk};
ghost use Rattle.hc_bits.specs.BitVector.{IsWidth};
ghost use Rattle.hc_signal.specs.Builds.{port};
ghost use Rattle.hc_signal.specs.Lawful.{ArePorts};
ghost use Rattle.hc_statements.specs.Gives.{AreWidths};
ghost use Rattle.hc_unfold.specs.Gives.{Gives};
ghost use Rattle.hc_statements.specs.declared.heads.HeadStop.TheVariants as head_stop;
ghost use Rattle.hc_statements.specs.Gives.{GivesHeads};
ghost use Rattle.hc_statements.specs.PortWidths as spec;

use crate::taken::Taken;
use hc_fault::{FaultKind, ItemList, Name, NoMemory};
use hc_lang::{CircuitText, Head};
use hc_num::{Env, eval};
use hc_signal::{BuildStop, Port, Ports};
use hc_unfold::as_width;
use std::alloc::Global;

/// Why heads have no widths: the kind of the fault and its line, or want of memory.
#[derive(Clone, Copy, Debug, PartialEq, Eq, Drop)]
pub enum HeadStop {
    Fault(FaultKind, u32),
    NoMemory,
}

/// Whether a name stands among these twice.
fn repeats(alloc: Global, names: &[Name]) -> Result<bool, NoMemory>
    ensures { IfOk result (λ r. r ≡ spec.repeats [] names.now) }
{
    let mut taken = Taken::new(alloc);
    'names: for name in names {
        if !taken.add(alloc, name)? {
            return Ok(true);
        }
    }
    Ok(false)
}

/// The parameters, bound one after another.
pub fn parameters(alloc: Global, params: &[Name], args: &[i64]) -> Result<Env, NoMemory>
    requires { length args.now ≡ length params.now }
    ensures { IfOk result (λ env. env ≡ spec.bound params.now args.now []) }
{
    let mut env = Env::new(alloc);
    'params: for (at, name) in params.iter().enumerate() {
        env.bind(name, args[at])?;
    }
    Ok(env)
}

/// The width of a head after ports of other names. F11 or F13 of its number; F12; F14 where its name is taken.
fn head_width(alloc: Global, env: &Env, taken: &mut Taken, head: &Head) -> Result<u32, BuildStop>
    ensures width { Gives (λ w. w) result (spec.width_of env.now taken.old head.now) }
    ensures taken { OnOk result (taken.new ≡ taken.old ++ head.now.name ∷ []) }
    ensures range { IfOk result (λ w. IsWidth w) }
{
    let width = as_width(eval(&head.width, env)?)?;
    if taken.add(alloc, &head.name)? {
        Ok(width)
    } else {
        Err(BuildStop::Fault(FaultKind::RepeatedName))
    }
}

/// Adds a width at the end.
fn push(widths: &mut Vec<u32>, width: u32) -> Result<(), HeadStop>
    ensures ok { OnOk result (widths.new.items ≡ widths.old.items ++ width ∷ []) }
    ensures memory { IfErr result (λ e. e ≡ head_stop.NoMemory) }
{
    match widths.push(width) {
        Ok(()) => Ok(()),
        Err(_) => Err(HeadStop::NoMemory),
    }
}

/// The same, with the line of its fault.
fn line_width(alloc: Global, env: &Env, taken: &mut Taken, head: &Head) -> Result<u32, HeadStop>
    ensures width { GivesHeads (λ w. w) result (spec.at_line head.now.line (spec.width_of env.now taken.old head.now)) }
    ensures taken { OnOk result (taken.new ≡ taken.old ++ head.now.name ∷ []) }
    ensures range { IfOk result (λ w. IsWidth w) }
{
    match head_width(alloc, env, taken, head) {
        Ok(width) => Ok(width),
        Err(BuildStop::Fault(kind)) => Err(HeadStop::Fault(kind, head.line)),
        Err(BuildStop::NoMemory) => Err(HeadStop::NoMemory),
    }
}

/// The widths of heads, or the first fault.
#[tactic(auto, using(crate::proofs::HeadSteps::onto_none, crate::proofs::HeadSteps::no_widths))]
fn widths(alloc: Global, env: &Env, heads: &[Head]) -> Result<Vec<u32>, HeadStop>
    ensures widths { GivesHeads (λ ws. ws.items) result (spec.widths_after env.now [] heads.now) }
    ensures range { IfOk result (λ ws. AreWidths ws.items) }
    ensures count { IfOk result (λ ws. length ws.items ≡ length heads.now) }
{
    let mut taken = Taken::new(alloc);
    let mut widths = Vec::new(alloc);
    'heads: for head in heads {
        let width = line_width(alloc, env, &mut taken, head)?;
        push(&mut widths, width)?;
    }
    Ok(widths)
}

/// The widths of the heads of a circuit at its arguments, or the first fault of its parameters and heads.
pub fn port_widths(alloc: Global, circuit: &CircuitText, args: &[i64]) -> Result<Vec<u32>, HeadStop>
    requires { length args.now ≡ length circuit.now.params }
    ensures widths { GivesHeads (λ ws. ws.items) result (spec.port_widths circuit.now args.now) }
    ensures range { IfOk result (λ ws. AreWidths ws.items) }
    ensures count { IfOk result (λ ws. length ws.items ≡ length circuit.now.heads) }
{
    let Ok(repeats) = repeats(alloc, circuit.params.as_slice()) else {
        return Err(HeadStop::NoMemory);
    };
    if repeats {
        return Err(HeadStop::Fault(FaultKind::RepeatedName, circuit.line));
    }
    let Ok(env) = parameters(alloc, circuit.params.as_slice(), args) else {
        return Err(HeadStop::NoMemory);
    };
    widths(alloc, &env, circuit.heads.as_slice())
}

/// Adds a port at the end.
fn push_port(ports: &mut ItemList<Port>, port: Port) -> Result<(), NoMemory>
    ensures { OnOk result (ports.new ≡ ports.old ++ port ∷ []) }
{
    match ports.push(port) {
        Ok(()) => Ok(()),
        Err((_, refused)) => Err(refused),
    }
}

/// Adds the port of a head to the inputs or the outputs.
fn add_port(
    alloc: Global,
    inputs: &mut ItemList<Port>,
    outputs: &mut ItemList<Port>,
    head: &Head,
    width: u32,
) -> Result<(), NoMemory>
    ensures inputs { OnOk result (inputs.new ≡ (if head.now.is_input then inputs.old ++ port head.now.name width ∷ [] else inputs.old)) }
    ensures outputs { OnOk result (outputs.new ≡ (if head.now.is_input then outputs.old else outputs.old ++ port head.now.name width ∷ [])) }
{
    let name = Name::new(alloc, head.name.bytes())?;
    let port = Port { name, width };
    if head.is_input {
        push_port(inputs, port)
    } else {
        push_port(outputs, port)
    }
}

/// The inputs and the outputs of heads of these widths.
#[tactic(auto, using(crate::proofs::HeadSteps::inputs_more, crate::proofs::HeadSteps::outputs_more))]
fn split(alloc: Global, heads: &[Head], widths: &[u32]) -> Result<Ports, NoMemory>
    requires { length widths.now ≡ length heads.now }
    ensures { IfOk result (λ ports. ports ≡ spec.ports_of heads.now widths.now) }
{
    let mut inputs = ItemList::new(alloc);
    let mut outputs = ItemList::new(alloc);
    'heads: for (at, head) in heads.iter().enumerate() {
        add_port(alloc, &mut inputs, &mut outputs, head, widths[at])?;
    }
    Ok(Ports { inputs, outputs })
}

/// The ports of heads of these widths.
#[tactic(auto, using(crate::proofs::HeadSteps::are_ports))]
pub fn ports(alloc: Global, heads: &[Head], widths: &[u32]) -> Result<Ports, NoMemory>
    requires count { length widths.now ≡ length heads.now }
    requires range { AreWidths widths.now }
    ensures value { IfOk result (λ ports. ports ≡ spec.ports_of heads.now widths.now) }
    ensures lawful { IfOk result (λ ports. ArePorts ports) }
{
    let ports = split(alloc, heads, widths)?;
    Ok(ports)
}
