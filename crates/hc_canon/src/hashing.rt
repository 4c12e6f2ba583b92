ghost use Rattle.std.specs.Prelude.{◌≡◌, ℕ};
ghost use Rattle.hc_canon.specs.Hashing.{hash_of, kind_code, mix, mix_bits, mix_circuit, mix_clear, mix_entry, mix_id, mix_instance, mix_list, mix_memory, mix_name, mix_node, mix_option, mix_port, mix_ports, mix_row, mix_write, op_code};

use crate::form::EntryId;
use hc_bits::{Bits, OpKind};
use hc_fault::Name;
use hc_signal::{
    Circuit, Ids, Instance, Memory, Node, NodeId, NodeRow, Op2, Port, Ports, WritePort,
};

#[tactic(auto, unfolding(crate::specs::Hashing::mix))]
fn mix(hash: u64, x: u64) -> u64
    ensures { result ≡ mix hash x }
{
    let product = (hash ^ x).wrapping_mul(0xFF51AFD7ED558CCD);
    product ^ (product >> 32)
}

/// Values that are mixed into a hash.
trait Hashed {
    ghost mixed: { ℕ → Self → ℕ };

    /// The hash with this value after what it has.
    fn mix_into(&self, hash: u64) -> u64
        ensures { result ≡ mixed hash self.now };
}

fn mix_list<T: Hashed>(hash: u64, items: &[T]) -> u64
    ensures { result ≡ mix_list T.mixed hash items.now }
{
    let mut hash = mix(hash, items.len() as u64);
    'items: for item in items {
        hash = item.mix_into(hash);
    }
    hash
}

fn mix_option<T: Hashed>(hash: u64, option: &Option<T>) -> u64
    ensures { result ≡ mix_option T.mixed hash option.now }
{
    match option {
        None => mix(hash, 0),
        Some(item) => item.mix_into(mix(hash, 1)),
    }
}

impl Hashed for u8 {
    ghost mixed = { mix };

    fn mix_into(&self, hash: u64) -> u64 {
        mix(hash, *self as u64)
    }
}

impl Hashed for NodeId {
    ghost mixed = { mix_id };

    fn mix_into(&self, hash: u64) -> u64 {
        mix(hash, self.0 as u64)
    }
}

impl Hashed for EntryId {
    ghost mixed = { mix_entry };

    fn mix_into(&self, hash: u64) -> u64 {
        mix(hash, self.0 as u64)
    }
}

impl Hashed for Bits {
    ghost mixed = { mix_bits };

    fn mix_into(&self, hash: u64) -> u64 {
        let hash = mix(hash, self.width() as u64);
        let hash = mix(hash, (self.value() / 18446744073709551616) as u64);
        mix(hash, (self.value() % 18446744073709551616) as u64)
    }
}

impl Hashed for (NodeId, Bits) {
    ghost mixed = { mix_clear };

    fn mix_into(&self, hash: u64) -> u64 {
        self.1.mix_into(self.0.mix_into(hash))
    }
}

impl Hashed for Name {
    ghost mixed = { mix_name };

    fn mix_into(&self, hash: u64) -> u64 {
        mix_list(hash, self.bytes())
    }
}

impl Hashed for Port {
    ghost mixed = { mix_port };

    fn mix_into(&self, hash: u64) -> u64 {
        self.name.mix_into(mix(hash, self.width as u64))
    }
}

impl Hashed for Ports {
    ghost mixed = { mix_ports };

    fn mix_into(&self, hash: u64) -> u64 {
        let hash = mix_list(hash, self.inputs.as_slice());
        mix_list(hash, self.outputs.as_slice())
    }
}

fn op_code(op: Op2) -> u64
    ensures { result ≡ op_code op }
{
    op as u64
}

fn kind_code(kind: OpKind) -> u64
    ensures { result ≡ kind_code kind }
{
    kind as u64
}

fn mix_ids(hash: u64, ids: &Ids) -> u64
    ensures { result ≡ mix_list mix_id hash ids.now }
{
    mix_list(hash, ids.as_slice())
}

impl Hashed for Node {
    ghost mixed = { mix_node };

    fn mix_into(&self, hash: u64) -> u64 {
        match self {
            Node::Input { port } => mix(mix(hash, 0), *port as u64),
            Node::Wire { driver } => mix_option(mix(hash, 1), driver),
            Node::Const { value } => value.mix_into(mix(hash, 2)),
            Node::Two { op, a, b } => {
                let hash = mix(mix(hash, 3), op_code(*op));
                b.mix_into(a.mix_into(hash))
            }
            Node::Not { a } => a.mix_into(mix(hash, 4)),
            Node::Mux { sel, cases } => mix_ids(sel.mix_into(mix(hash, 5)), cases),
            Node::Cat { parts } => mix_ids(mix(hash, 6), parts),
            Node::Select { a, hi, lo } => {
                let hash = a.mix_into(mix(hash, 7));
                mix(mix(hash, *hi as u64), *lo as u64)
            }
            Node::Reg {
                next,
                enable,
                clear,
                init,
            } => {
                let hash = next.mix_into(mix(hash, 8));
                let hash = mix_option(hash, enable);
                let hash = mix_option(hash, clear);
                init.mix_into(hash)
            }
            Node::Read { mem, addr } => addr.mix_into(mix(mix(hash, 9), mem.0 as u64)),
            Node::InstOut { inst, port } => { mix(mix(mix(hash, 10), inst.0 as u64), *port as u64) }
            Node::Op { kind, args } => mix_ids(mix(mix(hash, 11), kind_code(*kind)), args),
        }
    }
}

impl Hashed for NodeRow {
    ghost mixed = { mix_row };

    fn mix_into(&self, hash: u64) -> u64 {
        let hash = self.node.mix_into(mix(hash, self.width as u64));
        mix_option(hash, &self.label)
    }
}

impl Hashed for WritePort {
    ghost mixed = { mix_write };

    fn mix_into(&self, hash: u64) -> u64 {
        self.value
            .mix_into(self.addr.mix_into(self.enable.mix_into(hash)))
    }
}

impl Hashed for Memory {
    ghost mixed = { mix_memory };

    fn mix_into(&self, hash: u64) -> u64 {
        let hash = mix(mix(hash, self.size as u64), self.width as u64);
        let hash = mix_list(hash, self.writes.as_slice());
        mix_option(hash, &self.label)
    }
}

impl Hashed for Instance {
    ghost mixed = { mix_instance };

    fn mix_into(&self, hash: u64) -> u64 {
        let hash = mix_list(self.ports.mix_into(hash), self.conns.as_slice());
        mix_option(hash, &self.label)
    }
}

impl Hashed for Circuit {
    ghost mixed = { mix_circuit };

    fn mix_into(&self, hash: u64) -> u64 {
        let hash = self.ports().mix_into(hash);
        let hash = mix_list(hash, self.outputs());
        let hash = mix_list(hash, self.nodes());
        let hash = mix_list(hash, self.memories());
        mix_list(hash, self.instances())
    }
}

/// The hash of the form of these parts.
#[tactic(auto, unfolding(crate::specs::Hashing::hash_of))]
pub(crate) fn hash_parts(circuit: &Circuit, kids: &[EntryId]) -> u64
    ensures { result ≡ hash_of (record { circuit = circuit.now; kids = kids.now }) }
{
    mix_list(circuit.mix_into(0), kids)
}
