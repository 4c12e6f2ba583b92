ghost use Rattle.std.specs.Prelude.{◌≡◌, [], Err};
ghost use Rattle.hc_fault.specs.declared.fault.FaultKind.TheVariants as fault;
ghost use Rattle.hc_lang.specs.Found.{Gives, found};
ghost use Rattle.hc_lang.specs.Structure as s;

use crate::outline::{Block, OpenCircuit, Opening, Outline, Place};
use crate::row::NumberedLine;
use crate::stack::Stack;
use crate::text_stop::TextStop;
use crate::tree::{BenchLine, CircuitText, Head, TopLine};
use hc_fault::{FaultKind, ItemList, Name};
use hc_lines::{BenchWhat, Line, Stmt, What};
use hc_tokens::Num;
use std::alloc::Global;

/// The line of this number has no place. What was at hand is let go.
fn refused<T: Drop, X>(number: u32, _value: T) -> Result<X, TextStop>
    ensures { result ≡ Err (TextStop.Fault fault.Misplaced number) }
{
    Err(TextStop::Fault(FaultKind::Misplaced, number))
}

/// What stopped the reading. What was at hand is let go.
fn stopped<T: Drop, X>(stop: TextStop, _value: T) -> Result<X, TextStop>
    ensures { result ≡ Err stop }
{
    Err(stop)
}

/// A port stands before all statements.
fn with_head(circuit: OpenCircuit, head: Head) -> Result<OpenCircuit, TextStop>
    ensures { Gives (λ x. x) result (s.misplaced_at head.line (s.with_head circuit head)) }
{
    let mut circuit = circuit;
    if circuit.blocks.len() != 0 || circuit.body.as_slice().len() != 0 {
        return Err(TextStop::Fault(FaultKind::Misplaced, head.line));
    }
    circuit.heads.push(head)?;
    Ok(circuit)
}

fn with_stmt(circuit: OpenCircuit, stmt: Stmt) -> Result<OpenCircuit, TextStop>
    ensures { Gives (λ x. x) result (s.misplaced_at stmt.line (s.some (s.with_stmt circuit stmt))) }
{
    let mut circuit = circuit;
    circuit.body.push(stmt)?;
    Ok(circuit)
}

/// Opens a block, where fewer than `most` are open.
fn opened(
    alloc: Global,
    circuit: OpenCircuit,
    number: u32,
    opening: Opening,
    most: usize,
) -> Result<OpenCircuit, TextStop>
    ensures { Gives (λ x. x) result (s.misplaced_at number (s.opened most circuit number opening)) }
{
    let OpenCircuit {
        line,
        name,
        params,
        heads,
        mut blocks,
        body,
    } = circuit;
    if blocks.len() >= most {
        return Err(TextStop::Fault(FaultKind::Misplaced, number));
    }
    blocks.push(Block {
        line: number,
        opening,
        before: body,
    })?;
    Ok(OpenCircuit {
        line,
        name,
        params,
        heads,
        blocks,
        body: ItemList::new(alloc),
    })
}

/// The second part of a choice.
fn turned(yes: ItemList<Stmt>, number: u32, opening: Opening) -> Result<Opening, TextStop>
    ensures { Gives (λ x. x) result (s.misplaced_at number (s.turned yes opening)) }
{
    match opening {
        Opening::If { cond } => Ok(Opening::Else { cond, yes }),
        _ => Err(TextStop::Fault(FaultKind::Misplaced, number)),
    }
}

/// Begins the second part of the choice that is open.
fn else_line(alloc: Global, circuit: OpenCircuit, number: u32) -> Result<OpenCircuit, TextStop>
    ensures { Gives (λ x. x) result (s.misplaced_at number (s.turned_in circuit circuit.blocks)) }
{
    let OpenCircuit {
        line,
        name,
        params,
        heads,
        mut blocks,
        body,
    } = circuit;
    let Some(block) = blocks.pop() else {
        return Err(TextStop::Fault(FaultKind::Misplaced, number));
    };
    let opening = turned(body, number, block.opening)?;
    blocks.push(Block {
        line: block.line,
        opening,
        before: block.before,
    })?;
    Ok(OpenCircuit {
        line,
        name,
        params,
        heads,
        blocks,
        body: ItemList::new(alloc),
    })
}

fn block_of(alloc: Global, opening: Opening, body: ItemList<Stmt>) -> What
    ensures { result ≡ s.block_of opening body }
{
    match opening {
        Opening::For { var, from, upto } => What::For {
            var,
            from,
            upto,
            body,
        },
        Opening::If { cond } => What::If {
            cond,
            yes: body,
            no: ItemList::new(alloc),
        },
        Opening::Else { cond, yes } => What::If {
            cond,
            yes,
            no: body,
        },
    }
}

/// Ends the innermost block.
fn end_line(alloc: Global, circuit: OpenCircuit, number: u32) -> Result<OpenCircuit, TextStop>
    ensures { Gives (λ x. x) result (s.misplaced_at number (s.ended_in circuit circuit.blocks)) }
{
    let OpenCircuit {
        line,
        name,
        params,
        heads,
        mut blocks,
        body: inner,
    } = circuit;
    let Some(block) = blocks.pop() else {
        return Err(TextStop::Fault(FaultKind::Misplaced, number));
    };
    let mut body = block.before;
    body.push(Stmt {
        line: block.line,
        what: block_of(alloc, block.opening, inner),
    })?;
    Ok(OpenCircuit {
        line,
        name,
        params,
        heads,
        blocks,
        body,
    })
}

/// A line that stands in a circuit.
fn in_circuit(
    alloc: Global,
    circuit: OpenCircuit,
    number: u32,
    line: Line,
    most: usize,
) -> Result<OpenCircuit, TextStop>
    ensures { Gives (λ x. x) result (s.misplaced_at number (s.in_circuit most circuit number line)) }
{
    match line {
        Line::Port {
            is_input,
            name,
            width,
        } => with_head(
            circuit,
            Head {
                line: number,
                is_input,
                name,
                width,
            },
        ),
        Line::Simple(what) => with_stmt(circuit, Stmt { line: number, what }),
        Line::For { var, from, upto } => opened(
            alloc,
            circuit,
            number,
            Opening::For { var, from, upto },
            most,
        ),
        Line::If(cond) => opened(alloc, circuit, number, Opening::If { cond }, most),
        Line::Else => else_line(alloc, circuit, number),
        Line::End => end_line(alloc, circuit, number),
        line => refused(number, line),
    }
}

fn circuit_begun(
    alloc: Global,
    circuits: ItemList<CircuitText>,
    number: u32,
    name: Name,
    params: ItemList<Name>,
) -> Outline
    ensures { result ≡ s.circuit_begun circuits number name params }
{
    Outline {
        circuits,
        place: Place::Circuit(OpenCircuit {
            line: number,
            name,
            params,
            heads: ItemList::new(alloc),
            blocks: Stack::new(alloc),
            body: ItemList::new(alloc),
        }),
    }
}

fn top_at(circuits: ItemList<CircuitText>, number: u32, name: Name, args: ItemList<Num>) -> Outline
    ensures { result ≡ s.top_at circuits number name args }
{
    Outline {
        circuits,
        place: Place::Top(TopLine {
            line: number,
            name,
            args,
        }),
    }
}

/// A line that stands after whole circuits.
fn after_circuits(
    alloc: Global,
    circuits: ItemList<CircuitText>,
    number: u32,
    line: Line,
) -> Result<Outline, TextStop>
    ensures { Gives (λ x. x) result (s.misplaced_at number (s.after_circuits circuits number line)) }
{
    match line {
        Line::Circuit { name, params } => {
            Ok(circuit_begun(alloc, circuits, number, name, params))
        }
        Line::Top { name, args } => Ok(top_at(circuits, number, name, args)),
        line => refused(number, line),
    }
}

/// The circuits with one more.
fn with_circuit(
    circuits: ItemList<CircuitText>,
    circuit: OpenCircuit,
) -> Result<ItemList<CircuitText>, TextStop>
    ensures { Gives (λ x. x) result (found (s.with_circuit circuits circuit)) }
{
    let mut circuits = circuits;
    let OpenCircuit {
        line,
        name,
        params,
        heads,
        blocks: _,
        body,
    } = circuit;
    circuits.push(CircuitText {
        line,
        name,
        params,
        heads,
        body,
    })?;
    Ok(circuits)
}

fn ends_circuit(line: &Line) -> bool
    ensures { result ≡ s.ends_circuit line.now }
{
    match line {
        Line::Circuit { .. } | Line::Top { .. } => true,
        _ => false,
    }
}

/// A line that ends the circuit before it.
fn circuit_ended(
    alloc: Global,
    circuits: ItemList<CircuitText>,
    circuit: OpenCircuit,
    number: u32,
    line: Line,
) -> Result<Outline, TextStop>
    ensures { Gives (λ x. x) result (s.misplaced_at number (s.after_circuits (s.with_circuit circuits circuit) number line)) }
{
    match with_circuit(circuits, circuit) {
        Ok(circuits) => after_circuits(alloc, circuits, number, line),
        Err(stop) => stopped(stop, line),
    }
}

/// A line in the circuit.
fn circuit_goes_on(
    alloc: Global,
    circuits: ItemList<CircuitText>,
    circuit: OpenCircuit,
    number: u32,
    line: Line,
    most: usize,
) -> Result<Outline, TextStop>
    ensures { Gives (λ x. x) result (s.misplaced_at number (s.circuit_goes_on circuits (s.in_circuit most circuit number line))) }
{
    let circuit = in_circuit(alloc, circuit, number, line, most)?;
    Ok(Outline {
        circuits,
        place: Place::Circuit(circuit),
    })
}

/// A line after lines of a circuit.
fn after_circuit(
    alloc: Global,
    circuits: ItemList<CircuitText>,
    circuit: OpenCircuit,
    number: u32,
    line: Line,
    most: usize,
) -> Result<Outline, TextStop>
    ensures { Gives (λ x. x) result (s.misplaced_at number (s.after_circuit most circuits circuit number line)) }
{
    if !ends_circuit(&line) {
        return circuit_goes_on(alloc, circuits, circuit, number, line, most);
    }
    if circuit.blocks.len() != 0 {
        return refused(number, (circuit, line));
    }
    circuit_ended(alloc, circuits, circuit, number, line)
}

fn bench_begun(alloc: Global, circuits: ItemList<CircuitText>, top: TopLine, number: u32) -> Outline
    ensures { result ≡ s.bench_at circuits top number [] }
{
    Outline {
        circuits,
        place: Place::Bench {
            top,
            line: number,
            steps: ItemList::new(alloc),
        },
    }
}

/// A line after the `top` line.
fn after_top(
    alloc: Global,
    circuits: ItemList<CircuitText>,
    top: TopLine,
    number: u32,
    line: Line,
) -> Result<Outline, TextStop>
    ensures { Gives (λ x. x) result (s.misplaced_at number (s.after_top circuits top number line)) }
{
    match line {
        Line::Bench => Ok(bench_begun(alloc, circuits, top, number)),
        line => refused(number, line),
    }
}

fn with_step(
    steps: ItemList<BenchLine>,
    number: u32,
    what: BenchWhat,
) -> Result<ItemList<BenchLine>, TextStop>
    ensures { Gives (λ x. x) result (found (s.with_step steps number what)) }
{
    let mut steps = steps;
    steps.push(BenchLine { line: number, what })?;
    Ok(steps)
}

/// The bench, which the line `first` opened, with one step more.
fn bench_at(
    circuits: ItemList<CircuitText>,
    top: TopLine,
    first: u32,
    steps: ItemList<BenchLine>,
) -> Outline
    ensures { result ≡ s.bench_at circuits top first steps }
{
    Outline {
        circuits,
        place: Place::Bench {
            top,
            line: first,
            steps,
        },
    }
}

fn bench_ended(circuits: ItemList<CircuitText>, top: TopLine, steps: ItemList<BenchLine>) -> Outline
    ensures { result ≡ s.bench_ended circuits top steps }
{
    Outline {
        circuits,
        place: Place::End { top, steps },
    }
}

/// A line in the bench, which the line `first` opened.
fn in_bench(
    circuits: ItemList<CircuitText>,
    top: TopLine,
    first: u32,
    steps: ItemList<BenchLine>,
    number: u32,
    line: Line,
) -> Result<Outline, TextStop>
    ensures { Gives (λ x. x) result (s.misplaced_at number (s.in_bench circuits top first steps number line)) }
{
    match line {
        Line::Step(what) => {
            let steps = with_step(steps, number, what)?;
            Ok(bench_at(circuits, top, first, steps))
        }
        Line::End => Ok(bench_ended(circuits, top, steps)),
        line => refused(number, line),
    }
}

/// A line that stands in no circuit.
fn elsewhere(
    alloc: Global,
    circuits: ItemList<CircuitText>,
    place: Place,
    number: u32,
    line: Line,
) -> Result<Outline, TextStop>
    ensures { Gives (λ x. x) result (s.misplaced_at number (s.elsewhere circuits place number line)) }
{
    match place {
        Place::Start => after_circuits(alloc, circuits, number, line),
        Place::Top(top) => after_top(alloc, circuits, top, number, line),
        Place::Bench {
            top,
            line: first,
            steps,
        } => in_bench(circuits, top, first, steps, number, line),
        place => refused(number, (place, line)),
    }
}

/// The outline with one line more.
fn step(
    alloc: Global,
    outline: Outline,
    number: u32,
    line: Line,
    most: usize,
) -> Result<Outline, TextStop>
    ensures { Gives (λ x. x) result (s.misplaced_at number (s.after most outline.circuits outline.place number line)) }
{
    let Outline { circuits, place } = outline;
    match place {
        Place::Circuit(circuit) => after_circuit(alloc, circuits, circuit, number, line, most),
        place => elsewhere(alloc, circuits, place, number, line),
    }
}

/// The outline of these rows. A `Fault` is the first row that has no place, where at most `most` blocks may be open.
pub(crate) fn outlined(
    alloc: Global,
    rows: ItemList<NumberedLine>,
    most: usize,
) -> Result<Outline, TextStop>
    ensures { Gives (λ x. x) result (s.steps most s.start rows) }
{
    let mut outline = Outline {
        circuits: ItemList::new(alloc),
        place: Place::Start,
    };
    'row: for (number, line) in rows.into_vec() {
        match step(alloc, outline, number, line, most) {
            Ok(next) => outline = next,
            Err(stop) => return Err(stop),
        }
    }
    Ok(outline)
}
