ghost use Rattle.std.specs.Prelude.{◌≡◌, ◌++◌, ◌∷◌, [], get_or, map, option_map, IfOk, OnOk};
ghost use Rattle.hc_canon.specs.Layout.{picked};
ghost use Rattle.hc_canon.specs.Numbers.{renumbering};
ghost use Rattle.hc_signal.specs.Renumber.{clear_by, id_by, instance_by, memory_by, node_by, Renumbering, row_by, write_by};

use crate::form::EntryId;
use crate::numbers::Numbers;
use hc_bits::Bits;
use hc_fault::{ItemList, Name, NoMemory};
use hc_signal::{
    Ids, InstId, Instance, MemId, Memory, Node, NodeId, NodeRow, Port, Ports, WritePort,
};
use std::alloc::Global;

/// Rows with numbers of nodes, memories and instances in them.
pub trait Renumber: Drop {
    ghost renumbered: { Renumbering → Self → Self };

    /// A copy with the new numbers.
    fn renumbered(&self, alloc: Global, numbers: &Numbers) -> Result<Self, NoMemory>
        ensures { IfOk result (λ made. made ≡ renumbered (renumbering numbers.now) self.now) };
}

fn pick_one<T: Renumber>(
    alloc: Global,
    numbers: &Numbers,
    rows: &[T],
    place: u32,
    made: &mut Vec<T>,
) -> Result<(), NoMemory>
    ensures { OnOk result (made.new.items ≡ made.old.items ++ picked (T.renumbered (renumbering numbers.now)) rows.now (place ∷ [])) }
{
    match rows.get(place as usize) {
        Some(row) => {
            made.push(row.renumbered(alloc, numbers)?)?;
            Ok(())
        }
        None => Ok(()),
    }
}

/// The rows in `made`, and after them the rows at these places with the new numbers.
pub fn pick<T: Renumber>(
    alloc: Global,
    numbers: &Numbers,
    rows: &[T],
    places: &[u32],
    made: Vec<T>,
) -> Result<Vec<T>, NoMemory>
    ensures { IfOk result (λ all. all.items ≡ made.items ++ picked (T.renumbered (renumbering numbers.now)) rows.now places.now) }
{
    let mut all = made;
    'places: for place in places {
        pick_one(alloc, numbers, rows, *place, &mut all)?;
    }
    Ok(all)
}

impl Renumber for EntryId {
    ghost renumbered = { λ _ id. id };

    fn renumbered(&self, _alloc: Global, _numbers: &Numbers) -> Result<EntryId, NoMemory> {
        Ok(*self)
    }
}

fn number(table: &[u32], at: u32) -> u32
    ensures { result ≡ get_or table.now at 0 }
{
    let at = at as usize;
    if at < table.len() { table[at] } else { 0 }
}

fn new_id(numbers: &Numbers, id: NodeId) -> NodeId
    ensures { result ≡ id_by (renumbering numbers.now) id }
{
    NodeId(number(numbers.nodes.as_slice(), id.0))
}

/// The same nodes by their new numbers.
pub fn new_ids(
    alloc: Global,
    numbers: &Numbers,
    ids: &[NodeId],
) -> Result<ItemList<NodeId>, NoMemory>
    ensures { IfOk result (λ made. made ≡ map (id_by (renumbering numbers.now)) ids.now) }
{
    let mut made = Vec::new(alloc);
    'ids: for id in ids {
        made.push(new_id(numbers, *id))?;
    }
    Ok(ItemList::from_vec(made))
}

fn new_short(alloc: Global, numbers: &Numbers, ids: &Ids) -> Result<Ids, NoMemory>
    ensures { IfOk result (λ made. made ≡ map (id_by (renumbering numbers.now)) ids.now) }
{
    let made = new_ids(alloc, numbers, ids.as_slice())?;
    Ids::from_slice(alloc, made.as_slice())
}

fn new_enable(numbers: &Numbers, enable: &Option<NodeId>) -> Option<NodeId>
    ensures { result ≡ option_map (id_by (renumbering numbers.now)) enable.now }
{
    match enable {
        Some(id) => Some(new_id(numbers, *id)),
        None => None,
    }
}

fn new_clear(numbers: &Numbers, clear: &Option<(NodeId, Bits)>) -> Option<(NodeId, Bits)>
    ensures { result ≡ option_map (clear_by (renumbering numbers.now)) clear.now }
{
    match clear {
        Some((id, value)) => Some((new_id(numbers, *id), *value)),
        None => None,
    }
}

fn new_node(alloc: Global, numbers: &Numbers, node: &Node) -> Result<Node, NoMemory>
    ensures { IfOk result (λ made. made ≡ node_by (renumbering numbers.now) node.now) }
{
    match node {
        Node::Input { port } => Ok(Node::Input { port: *port }),
        Node::Wire { driver } => Ok(Node::Wire {
            driver: new_enable(numbers, driver),
        }),
        Node::Const { value } => Ok(Node::Const { value: *value }),
        Node::Two { op, a, b } => Ok(Node::Two {
            op: *op,
            a: new_id(numbers, *a),
            b: new_id(numbers, *b),
        }),
        Node::Not { a } => Ok(Node::Not {
            a: new_id(numbers, *a),
        }),
        Node::Mux { sel, cases } => {
            let cases = new_short(alloc, numbers, cases)?;
            Ok(Node::Mux {
                sel: new_id(numbers, *sel),
                cases,
            })
        }
        Node::Cat { parts } => {
            let parts = new_short(alloc, numbers, parts)?;
            Ok(Node::Cat { parts })
        }
        Node::Select { a, hi, lo } => Ok(Node::Select {
            a: new_id(numbers, *a),
            hi: *hi,
            lo: *lo,
        }),
        Node::Reg {
            next,
            enable,
            clear,
            init,
        } => Ok(Node::Reg {
            next: new_id(numbers, *next),
            enable: new_enable(numbers, enable),
            clear: new_clear(numbers, clear),
            init: *init,
        }),
        Node::Read { mem, addr } => Ok(Node::Read {
            mem: MemId(number(numbers.memories.as_slice(), mem.0)),
            addr: new_id(numbers, *addr),
        }),
        Node::InstOut { inst, port } => Ok(Node::InstOut {
            inst: InstId(number(numbers.instances.as_slice(), inst.0)),
            port: *port,
        }),
        Node::Op { kind, args } => {
            let args = new_short(alloc, numbers, args)?;
            Ok(Node::Op { kind: *kind, args })
        }
    }
}

fn label_copy(alloc: Global, label: &Option<Name>) -> Result<Option<Name>, NoMemory>
    ensures { IfOk result (λ made. made ≡ label.now) }
{
    match label {
        Some(name) => match Name::new(alloc, name.bytes()) {
            Ok(made) => Ok(Some(made)),
            Err(e) => Err(e),
        },
        None => Ok(None),
    }
}

impl Renumber for NodeRow {
    ghost renumbered = { row_by };

    fn renumbered(&self, alloc: Global, numbers: &Numbers) -> Result<NodeRow, NoMemory> {
        let node = new_node(alloc, numbers, &self.node)?;
        let label = label_copy(alloc, &self.label)?;
        Ok(NodeRow {
            width: self.width,
            node,
            label,
        })
    }
}

fn new_write(numbers: &Numbers, write: &WritePort) -> WritePort
    ensures { result ≡ write_by (renumbering numbers.now) write.now }
{
    WritePort {
        enable: new_id(numbers, write.enable),
        addr: new_id(numbers, write.addr),
        value: new_id(numbers, write.value),
    }
}

fn new_writes(
    alloc: Global,
    numbers: &Numbers,
    writes: &[WritePort],
) -> Result<ItemList<WritePort>, NoMemory>
    ensures { IfOk result (λ made. made ≡ map (write_by (renumbering numbers.now)) writes.now) }
{
    let mut made = Vec::new(alloc);
    'writes: for write in writes {
        made.push(new_write(numbers, write))?;
    }
    Ok(ItemList::from_vec(made))
}

impl Renumber for Memory {
    ghost renumbered = { memory_by };

    fn renumbered(&self, alloc: Global, numbers: &Numbers) -> Result<Memory, NoMemory> {
        let writes = new_writes(alloc, numbers, self.writes.as_slice())?;
        let label = label_copy(alloc, &self.label)?;
        Ok(Memory {
            size: self.size,
            width: self.width,
            writes,
            label,
        })
    }
}

fn port_copy(alloc: Global, port: &Port) -> Result<Port, NoMemory>
    ensures { IfOk result (λ made. made ≡ port.now) }
{
    let name = Name::new(alloc, port.name.bytes())?;
    Ok(Port {
        name,
        width: port.width,
    })
}

fn port_list(alloc: Global, ports: &[Port]) -> Result<ItemList<Port>, NoMemory>
    ensures { IfOk result (λ made. made ≡ ports.now) }
{
    let mut made = Vec::new(alloc);
    'ports: for port in ports {
        made.push(port_copy(alloc, port)?)?;
    }
    Ok(ItemList::from_vec(made))
}

/// The same ports.
pub fn ports_copy(alloc: Global, ports: &Ports) -> Result<Ports, NoMemory>
    ensures { IfOk result (λ made. made ≡ ports.now) }
{
    let inputs = port_list(alloc, ports.inputs.as_slice())?;
    let outputs = port_list(alloc, ports.outputs.as_slice())?;
    Ok(Ports { inputs, outputs })
}

impl Renumber for Instance {
    ghost renumbered = { instance_by };

    fn renumbered(&self, alloc: Global, numbers: &Numbers) -> Result<Instance, NoMemory> {
        let ports = ports_copy(alloc, &self.ports)?;
        let conns = new_ids(alloc, numbers, self.conns.as_slice())?;
        let label = label_copy(alloc, &self.label)?;
        Ok(Instance {
            ports,
            conns,
            label,
        })
    }
}
