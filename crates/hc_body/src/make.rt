ghost use Rattle.std.specs.Prelude.{◌≡◌, [], length, map, IfOk};
ghost use Rattle.hc_unfold.specs.Places.{numbers};
ghost use Rattle.hc_unfold.specs.Signals.{number};
ghost use Rattle.hc_statements.specs.Gives.{Answers, IsAnswer, Tells};
ghost use Rattle.hc_body.specs.BodyOf.{BodyOf, IsCall, IsCallOf};
ghost use Rattle.hc_statements.specs.Elaborated.{call_elaborated, call_ports, fault_at};
ghost use Rattle.hc_statements.specs.PortWidths.{parameters};
ghost use Rattle.hc_statements.specs.Unrolled.{unrolled};
ghost use Rattle.hc_body.specs.TopCall as top;
ghost use Rattle.hc_lang.specs.declared.tree.CircuitText.{CircuitText};

use crate::blocks::{Running, run_block};
use crate::finish::finish;
use crate::kinds::{Body, Call};
use crate::open::open;
use hc_fault::{FaultKind, ItemList, Path, Refused};
use hc_lang::{CircuitText, Design, Num};
use hc_num::Env;
use hc_signal::{BuildStop, Ports};
use hc_statements::{HeadStop, circuit_place, port_widths, ports, refused_at};
use hc_unfold::numbers;
use std::alloc::Global;

/// A fault of the `top` line, or want of memory.
fn refused_on_top(alloc: Global, kind: FaultKind, line: u32) -> Refused
    ensures { Tells result (fault_at top.top_path kind line) }
{
    let path = Path {
        steps: ItemList::new(alloc),
    };
    refused_at(alloc, &path, kind, line)
}

/// A call with these arguments.
fn called_with(alloc: Global, line: u32, place: usize, args: &[Num]) -> Result<Call, Refused>
    ensures { Answers (λ call. call) result (top.called_with line place (numbers (map (number []) args.now))) }
{
    match numbers(alloc, args, &Env::new(alloc)) {
        Ok(args) => match u32::try_from(place) {
            Ok(circuit) => Ok(Call {
                circuit,
                args: ItemList::from_vec(args),
            }),
            Err(_) => Err(Refused::NoMemory),
        },
        Err(BuildStop::Fault(kind)) => Err(refused_on_top(alloc, kind, line)),
        Err(BuildStop::NoMemory) => Err(Refused::NoMemory),
    }
}

/// The call of the `top` line. F9 where no circuit has its name, F10 where it has another count of arguments than the
/// circuit has parameters, else the first F11 or F13 of its arguments; all with the empty path.
pub fn top_call(alloc: Global, design: &Design) -> Result<Call, Refused>
    ensures { Answers (λ call. call) result (top.top_call design.now) }
{
    let line = design.top.line;
    let circuits = design.circuits.as_slice();
    let Some(place) = circuit_place(circuits, &design.top.name) else {
        return Err(refused_on_top(alloc, FaultKind::UnknownCircuit, line));
    };
    let args = design.top.args.as_slice();
    if args.len() != circuits[place].params.as_slice().len() {
        return Err(refused_on_top(alloc, FaultKind::ArgCount, line));
    }
    called_with(alloc, line, place, args)
}

/// The ports of a circuit at its arguments.
fn ports_at(
    alloc: Global,
    circuit: &CircuitText,
    args: &[i64],
    path: &Path,
) -> Result<Ports, Refused>
    requires { length args.now ≡ length circuit.now.params }
    ensures { Answers (λ ports. ports) result (call_ports path.now circuit.now args.now) }
{
    match port_widths(alloc, circuit, args) {
        Ok(widths) => match ports(alloc, circuit.heads.as_slice(), widths.as_slice()) {
            Ok(ports) => Ok(ports),
            Err(_) => Err(Refused::NoMemory),
        },
        Err(HeadStop::Fault(kind, line)) => Err(refused_at(alloc, path, kind, line)),
        Err(HeadStop::NoMemory) => Err(Refused::NoMemory),
    }
}

/// The circuit of a call.
fn circuit_of<'a>(design: &'a Design, call: &Call) -> &'a CircuitText
    requires { IsCall design.now call.now }
    ensures { IsCallOf design.now call.now result.now }
{
    &design.circuits.as_slice()[call.circuit as usize]
}

/// The ports of a call, or its first fault, with the path: `RepeatedName` on the circuit's line where two parameters have one
/// name; else the first of its heads, on the head's line: `Number` or `UnknownName` of its width, `Width` where that is no
/// width, `RepeatedName` where an earlier head has its name.
pub fn ports_of(alloc: Global, design: &Design, call: &Call, path: &Path) -> Result<Ports, Refused>
    requires { IsCall design.now call.now }
    ensures { (c : CircuitText) → IsCallOf design.now call.now c → Answers (λ ports. ports) result (call_ports path.now c call.now.args) }
{
    let circuit = circuit_of(design, call);
    ports_at(alloc, circuit, call.args.as_slice(), path)
}

/// A call whose lines have all run, or the first fault of its heads and its lines.
fn run_call(
    alloc: Global,
    design: &Design,
    circuit: &CircuitText,
    args: &[i64],
    path: &Path,
) -> Result<Running, Refused>
    requires { length args.now ≡ length circuit.now.params }
    ensures done { Answers (λ run. run.body) result (call_elaborated design.now path.now circuit.now args.now) }
    ensures count { IfOk result (λ run. run.count ≡ (unrolled circuit.now.body (parameters circuit.now args.now)).count) }
{
    let mut run = match open(alloc, circuit, args, path) {
        Ok(run) => run,
        Err(stop) => return Err(stop),
    };
    match run_block(alloc, design, path, &mut run, circuit.body.as_slice()) {
        Ok(()) => Ok(run),
        Err(stop) => Err(stop),
    }
}

/// The body of a circuit at its arguments.
#[tactic(auto, using(crate::proofs::Finished::fault_answer))]
fn body_at(
    alloc: Global,
    design: &Design,
    circuit: &CircuitText,
    args: &[i64],
    path: &Path,
) -> Result<Body, Refused>
    requires { length args.now ≡ length circuit.now.params }
    ensures { IsAnswer (λ body. body) (BodyOf design.now circuit.now args.now path.now) result }
{
    match run_call(alloc, design, circuit, args, path) {
        Ok(run) => finish(alloc, design, circuit, args, path, run),
        Err(stop) => Err(stop),
    }
}

/// The body of a call: its heads, then its lines in the order in which they run, then the rules of the whole circuit. The
/// first fault of these, among F9 to F28 and F37, has the line where it comes, and the path of the call in whose lines
/// that is. Of the whole circuit, `NoOutputs` has the line of the circuit, `PortCount` that of the 129th input or else output,
/// `Undriven` that where the wire or output is declared.
pub fn body(alloc: Global, design: &Design, call: &Call, path: &Path) -> Result<Body, Refused>
    requires { IsCall design.now call.now }
    ensures { (c : CircuitText) → IsCallOf design.now call.now c → IsAnswer (λ body. body) (BodyOf design.now c call.now.args path.now) result }
{
    let circuit = circuit_of(design, call);
    body_at(alloc, design, circuit, call.args.as_slice(), path)
}
