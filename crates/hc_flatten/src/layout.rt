ghost use Rattle.std.specs.Prelude.{◌≡◌, ◌+◌, ◌<◌, ◌++◌, length, map, slice_get, IfOk, IfSome, OnOk};
ghost use Rattle.hc_canon.specs.Numbering.{count_from};
ghost use Rattle.hc_canon.specs.Numbers.{renumbering};
ghost use Rattle.hc_dbstate.specs.Unfolding.{unfolding_of};
ghost use Rattle.hc_signal.specs.Lawful.{NodeAt};
ghost use Rattle.hc_signal.specs.Renumber.{memory_by};
ghost use Rattle.hc_flatten.specs.Flattened.{AreKids, AreKidsAt, AreStarts, IsEntry, IsKid, flat_memories, flat_nodes, flat_row, id_or_zero, kid_trees, number_of, numbering, numbers_from, output_number, own_memories, own_nodes, passes_on};
ghost use Rattle.hc_flatten.specs.Sizes.{AreSizes};

use crate::place::{Kid, Place};
use crate::size::{Size, after_kid, own_size, plus};
use hc_canon::{EntryId, Form, Numbers, Renumber, new_ids};
use hc_dbstate::{DbState, unfoldings_are_of_kids};
use hc_fault::NoMemory;
use hc_signal::{Memory, Node, NodeId, NodeRow};
use std::alloc::Global;

/// The nodes and memories that are laid so far.
#[derive(Drop)]
pub struct Laid {
    pub nodes: Vec<NodeRow>,
    pub memories: Vec<Memory>,
}

fn sum(a: u32, b: u32) -> Result<u32, NoMemory>
    ensures { IfOk result (λ s. s ≡ a + b) }
{
    match a.checked_add(b) {
        Some(s) => Ok(s),
        None => Err(NoMemory),
    }
}

/// The number of the node at a place, 0 past the end.
fn id_at(ids: &[NodeId], place: u32) -> u32
    ensures { result ≡ id_or_zero (slice_get ids.now place) }
{
    match ids.get(place as usize) {
        Some(id) => id.0,
        None => 0,
    }
}

/// Where the nodes and memories of the first instance begin.
fn first_start(form: &Form, place: &Place) -> Option<Size>
    ensures { IfSome result (λ s. (s.nodes ≡ place.now.nodes + length form.now.circuit.nodes) × (s.memories ≡ place.now.memories + length form.now.circuit.memories)) }
{
    match own_size(form.circuit()) {
        Some(own) => plus(
            Size {
                nodes: place.nodes,
                memories: place.memories,
            },
            own,
        ),
        None => None,
    }
}

/// Where the nodes and memories of each instance begin.
fn starts(
    alloc: Global,
    db: &DbState,
    sizes: &[Option<Size>],
    form: &Form,
    place: &Place,
) -> Result<Vec<Size>, NoMemory>
    requires { AreSizes db.now.entries sizes.now }
    ensures { IfOk result (λ made. AreStarts place.now form.now.circuit (kid_trees db.now.entries form.now) made.items) }
{
    form.canonical();
    let _ = db;
    let mut made = Vec::new(alloc);
    let mut next = match first_start(form, place) {
        Some(next) => next,
        None => return Err(NoMemory),
    };
    'kids: for kid in form.kids() {
        made.push(next)?;
        next = match after_kid(sizes, next, *kid) {
            Some(next) => next,
            None => return Err(NoMemory),
        };
    }
    Ok(made)
}

/// The number of an output of instance `i`.
fn output_number(
    db: &DbState,
    form: &Form,
    place: &Place,
    starts: &[Size],
    i: usize,
    port: u32,
) -> Result<u32, NoMemory>
    requires entry { IsEntry db.now.entries form.now }
    requires starts { AreStarts place.now form.now.circuit (kid_trees db.now.entries form.now) starts.now }
    requires there { i < length form.now.circuit.instances }
    ensures { IfOk result (λ k. k ≡ output_number place.now form.now.circuit (kid_trees db.now.entries form.now) i port) }
{
    db.legal();
    unfoldings_are_of_kids();
    form.canonical();
    let _ = place;
    let outputs = db.get(form.kids()[i]).circuit().outputs();
    sum(starts[i].nodes, id_at(outputs, port))
}

/// The number of the node that node `n` stands for.
fn number(
    db: &DbState,
    form: &Form,
    place: &Place,
    starts: &[Size],
    n: u32,
    node: &Node,
) -> Result<u32, NoMemory>
    requires entry { IsEntry db.now.entries form.now }
    requires starts { AreStarts place.now form.now.circuit (kid_trees db.now.entries form.now) starts.now }
    requires there { NodeAt form.now.circuit n node.now }
    ensures { IfOk result (λ k. k ≡ number_of place.now form.now.circuit (kid_trees db.now.entries form.now) n node.now) }
{
    form.canonical();
    match node {
        Node::Input { port } => match &place.inputs {
            Some(ids) => Ok(id_at(ids.as_slice(), *port)),
            None => sum(place.nodes, n),
        },
        Node::InstOut { inst, port } => {
            output_number(db, form, place, starts, inst.0 as usize, *port)
        }
        _ => sum(place.nodes, n),
    }
}

/// The number of each node.
fn node_numbers(
    alloc: Global,
    db: &DbState,
    form: &Form,
    place: &Place,
    starts: &[Size],
) -> Result<Vec<u32>, NoMemory>
    requires entry { IsEntry db.now.entries form.now }
    requires starts { AreStarts place.now form.now.circuit (kid_trees db.now.entries form.now) starts.now }
    ensures { IfOk result (λ made. made.items ≡ numbers_from place.now form.now.circuit (kid_trees db.now.entries form.now) 0 form.now.circuit.nodes) }
{
    form.canonical();
    let mut made = Vec::new(alloc);
    'rows: for (n, row) in form.circuit().nodes().iter().enumerate() {
        made.push(number(db, form, place, starts, n as u32, &row.node)?)?;
    }
    Ok(made)
}

/// So many numbers from this one on.
fn counted(alloc: Global, first: u32, many: usize) -> Result<Vec<u32>, NoMemory>
    ensures { IfOk result (λ made. made.items ≡ count_from first many) }
{
    let mut made = Vec::new(alloc);
    'numbers: for k in 0..many {
        if k > 4294967295 {
            return Err(NoMemory);
        }
        made.push(sum(first, k as u32)?)?;
    }
    Ok(made)
}

fn passes_on(place: &Place, node: &Node) -> bool
    ensures { result ≡ passes_on place.now.inputs node.now }
{
    match node {
        Node::Input { port: _ } => place.inputs.is_some(),
        Node::InstOut { inst: _, port: _ } => true,
        _ => false,
    }
}

fn flat_row(
    alloc: Global,
    place: &Place,
    numbers: &Numbers,
    row: &NodeRow,
) -> Result<NodeRow, NoMemory>
    ensures { IfOk result (λ made. made ≡ flat_row place.now (renumbering numbers.now) row.now) }
{
    if passes_on(place, &row.node) {
        Ok(NodeRow {
            width: row.width,
            node: Node::Wire { driver: None },
            label: None,
        })
    } else {
        row.renumbered(alloc, numbers)
    }
}

/// Lays the nodes of one circuit.
fn lay_nodes(
    alloc: Global,
    place: &Place,
    numbers: &Numbers,
    rows: &[NodeRow],
    nodes: &mut Vec<NodeRow>,
) -> Result<(), NoMemory>
    ensures { OnOk result (nodes.new.items ≡ nodes.old.items ++ map (flat_row place.now (renumbering numbers.now)) rows.now) }
{
    'rows: for row in rows {
        nodes.push(flat_row(alloc, place, numbers, row)?)?;
    }
    Ok(())
}

/// Lays the memories of one circuit.
fn lay_memories(
    alloc: Global,
    numbers: &Numbers,
    rows: &[Memory],
    memories: &mut Vec<Memory>,
) -> Result<(), NoMemory>
    ensures { OnOk result (memories.new.items ≡ memories.old.items ++ map (memory_by (renumbering numbers.now)) rows.now) }
{
    'rows: for row in rows {
        memories.push(row.renumbered(alloc, numbers)?)?;
    }
    Ok(())
}

/// An instance of a form with its place.
fn kid_of(
    alloc: Global,
    form: &Form,
    start: Size,
    numbers: &Numbers,
    i: usize,
) -> Result<Kid, NoMemory>
    requires there { i < length form.now.circuit.instances }
    ensures { IfOk result (IsKid form.now start (renumbering numbers.now) i) }
{
    form.canonical();
    let inputs = new_ids(
        alloc,
        numbers,
        form.circuit().instances()[i].conns.as_slice(),
    )?;
    Ok(Kid {
        entry: form.kids()[i],
        place: Place {
            nodes: start.nodes,
            memories: start.memories,
            inputs: Some(inputs),
        },
    })
}

/// The instances of a form with their places.
fn kids_of(
    alloc: Global,
    form: &Form,
    starts: &[Size],
    numbers: &Numbers,
) -> Result<Vec<Kid>, NoMemory>
    requires { length starts.now ≡ length form.now.circuit.instances }
    ensures { IfOk result (λ kids. AreKidsAt form.now starts.now (renumbering numbers.now) kids.items) }
{
    let mut kids = Vec::new(alloc);
    'kids: for (i, start) in starts.iter().enumerate() {
        kids.push(kid_of(alloc, form, *start, numbers, i)?)?;
    }
    Ok(kids)
}

/// The new numbers of a form's nodes and memories.
fn numbers_of(
    alloc: Global,
    db: &DbState,
    form: &Form,
    place: &Place,
    starts: &[Size],
) -> Result<Numbers, NoMemory>
    requires entry { IsEntry db.now.entries form.now }
    requires starts { AreStarts place.now form.now.circuit (kid_trees db.now.entries form.now) starts.now }
    ensures { IfOk result (λ numbers. renumbering numbers ≡ numbering place.now form.now.circuit (kid_trees db.now.entries form.now)) }
{
    let nodes = node_numbers(alloc, db, form, place, starts)?;
    let memories = counted(alloc, place.memories, form.circuit().memories().len())?;
    Ok(Numbers {
        nodes,
        memories,
        instances: Vec::new(alloc),
    })
}

/// Lays the circuit of a form, and tells where its instances are to be laid.
fn lay_own(
    alloc: Global,
    db: &DbState,
    sizes: &[Option<Size>],
    form: &Form,
    place: &Place,
    laid: &mut Laid,
) -> Result<Vec<Kid>, NoMemory>
    requires entry { IsEntry db.now.entries form.now }
    requires sizes { AreSizes db.now.entries sizes.now }
    ensures nodes { OnOk result (laid.new.nodes.items ≡ laid.old.nodes.items ++ own_nodes place.now form.now.circuit (kid_trees db.now.entries form.now)) }
    ensures memories { OnOk result (laid.new.memories.items ≡ laid.old.memories.items ++ own_memories place.now form.now.circuit (kid_trees db.now.entries form.now)) }
    ensures kids { IfOk result (λ kids. AreKids db.now.entries form.now place.now kids.items) }
{
    let starts = starts(alloc, db, sizes, form, place)?;
    let starts = starts.as_slice();
    let numbers = numbers_of(alloc, db, form, place, starts)?;
    let circuit = form.circuit();
    lay_nodes(alloc, place, &numbers, circuit.nodes(), &mut laid.nodes)?;
    lay_memories(alloc, &numbers, circuit.memories(), &mut laid.memories)?;
    kids_of(alloc, form, starts, &numbers)
}

/// Lays an occurrence of an entry, and after it those of its instances.
pub fn lay(
    alloc: Global,
    db: &DbState,
    sizes: &[Option<Size>],
    entry: EntryId,
    place: &Place,
    laid: &mut Laid,
) -> Result<(), NoMemory>
    requires there { entry.0 < length db.now.entries }
    requires sizes { AreSizes db.now.entries sizes.now }
    ensures nodes { OnOk result (laid.new.nodes.items ≡ laid.old.nodes.items ++ flat_nodes place.now (unfolding_of db.now.entries entry)) }
    ensures memories { OnOk result (laid.new.memories.items ≡ laid.old.memories.items ++ flat_memories place.now (unfolding_of db.now.entries entry)) }
{
    db.legal();
    unfoldings_are_of_kids();
    let kids = lay_own(alloc, db, sizes, db.get(entry), place, laid)?;
    'kids: for kid in kids.as_slice() {
        lay(alloc, db, sizes, kid.entry, &kid.place, laid)?;
    }
    Ok(())
}
