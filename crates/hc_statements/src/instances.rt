//! The statement `inst`.
ghost use Rattle.std.specs.Prelude.{◌≡◌, ◌≤◌, ◌<◌, true, ◌++◌, ◌∷◌, [], None, Some, length, map, replicate, slice_get, IfErr, IfOk, OnOk};
ghost use Rattle.std.specs.Option.{ForSome};
ghost use Rattle.hc_signal.specs.Builds.{IsInstance, IsNode};
ghost use Rattle.hc_signal.specs.Lawful.{ArePorts, HaveWidthsOf, HasWidth};
ghost use Rattle.hc_signal.specs.declared.stop.BuildStop.TheVariants as stop;
ghost use Rattle.hc_unfold.specs.Gives.{Gives, Grows};
ghost use Rattle.hc_unfold.specs.Names.{AreKnown};
ghost use Rattle.hc_unfold.specs.Signals.{number};
ghost use Rattle.hc_unfold.specs.Signals as written;
ghost use Rattle.hc_statements.specs.PortPlaces.{ArePlaces};
ghost use Rattle.hc_statements.specs.Connections.{FitPorts, FitsAt};
ghost use Rattle.hc_statements.specs.Gives.{AreWidths, IsInside, Performs, PerformsInst};
ghost use Rattle.hc_statements.specs.PortWidths.{port_widths};
ghost use Rattle.hc_statements.specs.Steps as steps;
ghost use Rattle.hc_statements.specs.declared.state.Elaborating.{Elaborating};
ghost use Rattle.hc_statements.specs.Unrolled.{connection};
ghost use Rattle.hc_statements.specs.Instances as spec;

use crate::heads::{HeadStop, port_widths, ports};
use crate::kinds::{Call, Child};
use crate::port_places::{Places, place_in, places_of_many};
use crate::state::{Elaborating, bind, is_new};
use hc_fault::{FaultKind, Ident, ItemList, Name, NoMemory};
use hc_lang::{CircuitText, Design, IdentText, Num, Sig};
use hc_num::Env;
use hc_signal::{BuildStop, Builder, InstId, NodeId, Port, Ports};
use hc_unfold::{Key, Target, draw, has_room, key, numbers};
use std::alloc::Global;

/// Why an instance was not added: the first broken rule, on the line of the statement or on a line of the instance's
/// circuit, or want of memory.
#[derive(Debug, Drop)]
pub enum InstStop {
    Here(FaultKind),
    Inside(Ident, u32, FaultKind),
    NoMemory,
}

impl From<BuildStop> for InstStop {
    ghost use Rattle.std.specs.Prelude.{◌≡◌};
    ghost use Rattle.hc_statements.specs.InstStops.{as_inst};

    ghost from_gives = { λ stop e. e ≡ as_inst stop };

    fn from(stop: BuildStop) -> InstStop {
        match stop {
            BuildStop::Fault(kind) => InstStop::Here(kind),
            BuildStop::NoMemory => InstStop::NoMemory,
        }
    }
}

/// Whether an input at a place is connected.
fn is_connected(done: &[Option<NodeId>], at: usize) -> bool
    ensures { result ≡ spec.is_connected (slice_get done.now at) }
{
    match done.get(at) {
        Some(node) => node.is_some(),
        None => false,
    }
}

/// The place of the input of this name. F21 where there is none, F22 where it is connected.
fn open_place(
    ins: &[Port],
    places: &Option<Places>,
    done: &[Option<NodeId>],
    name: &Name,
) -> Result<usize, BuildStop>
    requires { ForSome places.now (λ table. ArePlaces ins.now table.entries) }
    ensures place { Gives (λ k. k) result (spec.open_place ins.now done.now name.now) }
    ensures within { IfOk result (λ k. k < length ins.now) }
{
    let Some(at) = place_in(ins, places, name) else {
        return Err(BuildStop::Fault(FaultKind::UnknownPort));
    };
    if is_connected(done, at) {
        return Err(BuildStop::Fault(FaultKind::RepeatedPort));
    }
    Ok(at)
}

/// Whether a node has the width of an input.
#[tactic(auto, using(crate::proofs::Connected::has_width_at))]
fn fits(graph: &Builder, ins: &[Port], at: usize, id: NodeId) -> bool
    requires node { IsNode graph.now id }
    requires within { at < length ins.now }
    ensures value { result ≡ spec.fits graph.now ins.now at id }
    ensures width { result ≡ true → FitsAt graph.now ins.now at id }
{
    graph.width(id) == ins[at].width
}

/// Connects an input. F21 where there is none of this name, F22 where it is connected, F15 where widths differ.
#[tactic(auto, using(crate::proofs::Connected::fit_more, crate::proofs::Connected::fit_count))]
fn connect(
    alloc: Global,
    state: &mut Elaborating,
    env: &Env,
    ins: &[Port],
    places: &Option<Places>,
    done: &mut [Option<NodeId>],
    conn: &(Name, Sig),
) -> Result<(), BuildStop>
    requires known { AreKnown state.old.graph state.old.names }
    requires places { ForSome places.now (λ table. ArePlaces ins.now table.entries) }
    requires fit { FitPorts state.old.graph ins.now done.old }
    ensures done { Performs (λ _. (state.new, done.new)) result (spec.connect ins.now done.old (connection env.now conn.now) state.old) }
    ensures grows { OnOk result (Grows state.old.graph state.new.graph) }
    ensures names { OnOk result (state.new.names ≡ state.old.names) }
    ensures fit { OnOk result (FitPorts state.new.graph ins.now done.new) }
{
    let id = draw(alloc, &mut state.graph, &state.names, env, &conn.1)?;
    let at = open_place(ins, places, done, &conn.0)?;
    if !fits(&state.graph, ins, at, id) {
        return Err(BuildStop::Fault(FaultKind::WidthMismatch));
    }
    done[at] = Some(id);
    Ok(())
}

/// Connects inputs from left to right.
#[tactic(auto, using(crate::proofs::Known::known_still, crate::proofs::Known::grows_on, crate::proofs::Known::grows_none))]
fn connections(
    alloc: Global,
    state: &mut Elaborating,
    env: &Env,
    ins: &[Port],
    places: &Option<Places>,
    done: &mut [Option<NodeId>],
    conns: &[(Name, Sig)],
) -> Result<(), BuildStop>
    requires known { AreKnown state.old.graph state.old.names }
    requires places { ForSome places.now (λ table. ArePlaces ins.now table.entries) }
    requires fit { FitPorts state.old.graph ins.now done.old }
    ensures done { Performs (λ _. (state.new, done.new)) result (spec.connections ins.now done.old (map (connection env.now) conns.now) state.old) }
    ensures grows { OnOk result (Grows state.old.graph state.new.graph) }
    ensures names { OnOk result (state.new.names ≡ state.old.names) }
    ensures fit { OnOk result (FitPorts state.new.graph ins.now done.new) }
{
    'conns: for conn in conns {
        connect(alloc, state, env, ins, places, done, conn)?;
    }
    Ok(())
}

/// Adds a node at the end.
fn push(nodes: &mut Vec<NodeId>, node: NodeId) -> Result<(), BuildStop>
    ensures ok { OnOk result (nodes.new.items ≡ nodes.old.items ++ node ∷ []) }
    ensures memory { IfErr result (λ e. e ≡ stop.NoMemory) }
{
    match nodes.push(node) {
        Ok(()) => Ok(()),
        Err(_) => Err(BuildStop::NoMemory),
    }
}

/// The nodes of all inputs, in order. F23 where one is not connected.
#[tactic(auto, using(crate::proofs::Connected::onto_none, crate::proofs::Connected::onto_more))]
fn all_connected(alloc: Global, done: &[Option<NodeId>]) -> Result<Vec<NodeId>, BuildStop>
    ensures { Gives (λ ids. ids.items) result (spec.all_connected done.now) }
{
    let mut nodes = Vec::new(alloc);
    'done: for node in done {
        match node {
            Some(id) => push(&mut nodes, *id)?,
            None => return Err(BuildStop::Fault(FaultKind::MissingPort)),
        }
    }
    Ok(nodes)
}

/// Connects inputs from left to right: the node of each, in their order.
#[tactic(auto, using(crate::proofs::Connected::connected_fit))]
fn connected_from(
    alloc: Global,
    state: &mut Elaborating,
    env: &Env,
    ins: &[Port],
    places: &Option<Places>,
    done: &mut [Option<NodeId>],
    conns: &[(Name, Sig)],
) -> Result<Vec<NodeId>, BuildStop>
    requires known { AreKnown state.old.graph state.old.names }
    requires places { ForSome places.now (λ table. ArePlaces ins.now table.entries) }
    requires fit { FitPorts state.old.graph ins.now done.old }
    ensures done { Performs (λ ids. (state.new, ids.items)) result (spec.connected_from ins.now done.old (map (connection env.now) conns.now) state.old) }
    ensures grows { OnOk result (Grows state.old.graph state.new.graph) }
    ensures names { OnOk result (state.new.names ≡ state.old.names) }
    ensures widths { IfOk result (λ ids. HaveWidthsOf state.new.graph ids.items ins.now) }
{
    connections(alloc, state, env, ins, places, done, conns)?;
    let nodes = all_connected(alloc, done)?;
    Ok(nodes)
}

/// The node of each input, in their order.
#[tactic(auto, using(crate::proofs::Connected::fit_none))]
fn connected(
    alloc: Global,
    state: &mut Elaborating,
    env: &Env,
    ins: &[Port],
    conns: &[(Name, Sig)],
) -> Result<Vec<NodeId>, BuildStop>
    requires { AreKnown state.old.graph state.old.names }
    ensures done { Performs (λ ids. (state.new, ids.items)) result (spec.connected ins.now (map (connection env.now) conns.now) state.old) }
    ensures grows { OnOk result (Grows state.old.graph state.new.graph) }
    ensures names { OnOk result (state.new.names ≡ state.old.names) }
    ensures widths { IfOk result (λ ids. HaveWidthsOf state.new.graph ids.items ins.now) }
{
    let mut done = vec![in alloc; None; ins.len()]?;
    let places = places_of_many(alloc, ins)?;
    connected_from(alloc, state, env, ins, &places, done.as_mut_slice(), conns)
}

/// The most ports of one instance. No text of a lawful length comes near it.
const MOST_PORTS: usize = 1 << 31;

/// Adds an instance, and a node for each of its outputs.
#[tactic(auto, using(crate::proofs::Instanced::rows_longer))]
fn instance(graph: &mut Builder, ports: &Ports, conns: &[NodeId]) -> Result<InstId, BuildStop>
    requires ports { ArePorts ports.now }
    requires conns { HaveWidthsOf graph.old conns.now ports.now.inputs }
    ensures drawn { Gives (λ id. (graph.new, id)) result (spec.instance ports.now conns.now graph.old) }
    ensures nodes { OnOk result (length graph.old.nodes ≤ length graph.new.nodes) }
    ensures memories { OnOk result (length graph.old.memories ≤ length graph.new.memories) }
    ensures instances { OnOk result (length graph.old.instances ≤ length graph.new.instances) }
    ensures there { IfOk result (λ id. IsInstance graph.new id) }
{
    has_room(graph)?;
    if ports.outputs.as_slice().len() >= MOST_PORTS || conns.len() >= MOST_PORTS {
        return Err(BuildStop::NoMemory);
    }
    graph.instance(ports, conns)
}

/// The name of an instance, of its own memory.
fn ident_of(alloc: Global, key: &Key) -> Result<Ident, NoMemory>
    ensures { IfOk result (λ ident. ident ≡ spec.ident_of key.now) }
{
    let name = Name::new(alloc, key.0.bytes())?;
    Ok(Ident { name, index: key.1 })
}

/// A fault in the heads of an instance's circuit, or want of memory.
fn inside(alloc: Global, key: &Key, kind: FaultKind, line: u32) -> InstStop
    ensures { IsInside result (spec.ident_of key.now) line kind }
{
    match ident_of(alloc, key) {
        Ok(ident) => InstStop::Inside(ident, line, kind),
        Err(_) => InstStop::NoMemory,
    }
}

/// The widths of the heads of an instance's circuit, or their fault.
fn widths_of(
    alloc: Global,
    key: &Key,
    circuit: &CircuitText,
    args: &[i64],
) -> Result<Vec<u32>, InstStop>
    requires { length args.now ≡ length circuit.now.params }
    ensures widths { (e : Elaborating) → PerformsInst (λ ws. (e, ws.items)) result (spec.widths_of key.now (port_widths circuit.now args.now) e) }
    ensures range { IfOk result (λ ws. AreWidths ws.items) }
    ensures count { IfOk result (λ ws. length ws.items ≡ length circuit.now.heads) }
{
    match port_widths(alloc, circuit, args) {
        Ok(widths) => Ok(widths),
        Err(HeadStop::Fault(kind, line)) => Err(inside(alloc, key, kind, line)),
        Err(HeadStop::NoMemory) => Err(InstStop::NoMemory),
    }
}

/// Notes the call of an instance.
fn add_child(state: &mut Elaborating, child: Child) -> Result<(), BuildStop>
    ensures done { Performs (λ x. (state.new, x)) result (steps.add_child child state.old) }
{
    match state.children.push(child) {
        Ok(()) => Ok(()),
        Err(_) => Err(BuildStop::NoMemory),
    }
}

/// Adds an instance under a new name, and notes its call. F14 where the name is taken.
#[tactic(auto, using(crate::proofs::Known::known_longer))]
fn place(
    alloc: Global,
    state: &mut Elaborating,
    key: Key,
    line: u32,
    call: Call,
    ports: &Ports,
    inputs: &[NodeId],
) -> Result<(), BuildStop>
    requires known { AreKnown state.old.graph state.old.names }
    requires ports { ArePorts ports.now }
    requires inputs { HaveWidthsOf state.old.graph inputs.now ports.now.inputs }
    ensures done { Performs (λ x. (state.new, x)) result (spec.placed key line call ports.now inputs.now state.old) }
    ensures known { OnOk result (AreKnown state.new.graph state.new.names) }
{
    is_new(state, &key)?;
    let id = instance(&mut state.graph, ports, inputs)?;
    let ident = ident_of(alloc, &key)?;
    add_child(state, Child { call, ident, line })?;
    bind(state, key, Target::Instance(id))
}

/// Adds an instance of a circuit whose heads have these widths.
#[tactic(auto, using(crate::proofs::Known::known_still))]
fn with_widths(
    alloc: Global,
    state: &mut Elaborating,
    env: &Env,
    key: Key,
    line: u32,
    place_of_circuit: u32,
    circuit: &CircuitText,
    args: Vec<i64>,
    conns: &[(Name, Sig)],
    widths: &[u32],
) -> Result<(), BuildStop>
    requires known { AreKnown state.old.graph state.old.names }
    requires range { AreWidths widths.now }
    requires count { length widths.now ≡ length circuit.now.heads }
    ensures done { Performs (λ x. (state.new, x)) result (spec.with_widths key line place_of_circuit circuit.now args.items (map (connection env.now) conns.now) widths.now state.old) }
    ensures known { OnOk result (AreKnown state.new.graph state.new.names) }
{
    let Ok(ports) = ports(alloc, circuit.heads.as_slice(), widths) else {
        return Err(BuildStop::NoMemory);
    };
    let inputs = connected(alloc, state, env, ports.inputs.as_slice(), conns)?;
    let call = Call {
        circuit: place_of_circuit,
        args: ItemList::from_vec(args),
    };
    place(alloc, state, key, line, call, &ports, inputs.as_slice())
}

/// Adds an instance of a circuit, whose heads may have a fault.
fn instantiate(
    alloc: Global,
    state: &mut Elaborating,
    env: &Env,
    key: Key,
    line: u32,
    place_of_circuit: u32,
    circuit: &CircuitText,
    args: Vec<i64>,
    conns: &[(Name, Sig)],
) -> Result<(), InstStop>
    requires known { AreKnown state.old.graph state.old.names }
    requires count { length args.items ≡ length circuit.now.params }
    ensures done { PerformsInst (λ x. (state.new, x)) result (spec.instantiated key line place_of_circuit circuit.now args.items (map (connection env.now) conns.now) state.old) }
    ensures known { OnOk result (AreKnown state.new.graph state.new.names) }
{
    let widths = widths_of(alloc, &key, circuit, args.as_slice())?;
    with_widths(
        alloc,
        state,
        env,
        key,
        line,
        place_of_circuit,
        circuit,
        args,
        conns,
        widths.as_slice(),
    )?;
    Ok(())
}

/// The arguments of a circuit. F10 where they are not as many as its parameters, else their first fault.

fn arguments(
    alloc: Global,
    circuit: &CircuitText,
    args: &[Num],
    env: &Env,
) -> Result<Vec<i64>, BuildStop>
    ensures values { Gives (λ values. values.items) result (spec.arguments circuit.now (map (number env.now) args.now)) }
    ensures count { IfOk result (λ values. length values.items ≡ length circuit.now.params) }
{
    if args.len() != circuit.params.as_slice().len() {
        return Err(BuildStop::Fault(FaultKind::ArgCount));
    }
    let values = numbers(alloc, args, env)?;
    Ok(values)
}

/// The circuit of this name, and its place. F9 where there is none.
fn circuit_at<'a>(design: &'a Design, name: &Name) -> Result<(usize, &'a CircuitText), BuildStop>
    ensures { Gives (λ c. (c.0, c.1.now)) result (spec.circuit_at design.now (spec.circuit_place design.now.circuits name.now)) }
{
    match design.circuits.place(name) {
        Some(at) => Ok((at, &design.circuits.as_slice()[at])),
        None => Err(BuildStop::Fault(FaultKind::UnknownCircuit)),
    }
}

/// An instance.
pub(crate) fn inst_line(
    alloc: Global,
    design: &Design,
    state: &mut Elaborating,
    env: &Env,
    line: u32,
    to: &IdentText,
    of: &Name,
    args: &[Num],
    conns: &[(Name, Sig)],
) -> Result<(), InstStop>
    requires { AreKnown state.old.graph state.old.names }
    ensures done { PerformsInst (λ x. (state.new, x)) result (spec.inst_step design.now line (written.place env.now to.now) of.now (map (number env.now) args.now) (map (connection env.now) conns.now) state.old) }
    ensures known { OnOk result (AreKnown state.new.graph state.new.names) }
{
    let key = key(alloc, to, env)?;
    let (at, circuit) = circuit_at(design, of)?;
    let values = arguments(alloc, circuit, args, env)?;
    let Ok(place) = u32::try_from(at) else {
        return Err(InstStop::NoMemory);
    };
    instantiate(alloc, state, env, key, line, place, circuit, values, conns)
}
