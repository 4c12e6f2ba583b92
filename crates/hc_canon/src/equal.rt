ghost use Rattle.std.specs.Prelude.{◌≡◌, ◌↔◌, IsTrue};

use crate::form::{EntryId, Form};
use hc_bits::Bits;
use hc_fault::Name;
use hc_signal::{Circuit, Ids, Instance, Memory, Node, NodeId, NodeRow, Port, Ports, WritePort};

/// Values whose equality, as contracts see it, is tested.
trait Compare {
    /// Whether the two are equal.
    fn same(&self, other: &Self) -> bool
        ensures { IsTrue result ↔ (self.now ≡ other.now) };
}

impl Compare for NodeId {
    fn same(&self, other: &NodeId) -> bool {
        self.0 == other.0
    }
}

impl Compare for EntryId {
    fn same(&self, other: &EntryId) -> bool {
        self.0 == other.0
    }
}

impl Compare for Bits {
    fn same(&self, other: &Bits) -> bool {
        self.width() == other.width() && self.value() == other.value()
    }
}

impl Compare for Name {
    fn same(&self, other: &Name) -> bool {
        self.bytes() == other.bytes()
    }
}

impl Compare for Ids {
    fn same(&self, other: &Ids) -> bool {
        same_list(self.as_slice(), other.as_slice())
    }
}

fn same_list<T: Compare>(a: &[T], b: &[T]) -> bool
    ensures { IsTrue result ↔ (a.now ≡ b.now) }
{
    if a.len() != b.len() {
        return false;
    }
    'items: for i in 0..a.len() {
        if !a[i].same(&b[i]) {
            return false;
        }
    }
    true
}

fn same_option<T: Compare>(a: &Option<T>, b: &Option<T>) -> bool
    ensures { IsTrue result ↔ (a.now ≡ b.now) }
{
    match (a, b) {
        (Some(a), Some(b)) => a.same(b),
        (None, None) => true,
        _ => false,
    }
}

impl Compare for (NodeId, Bits) {
    fn same(&self, other: &(NodeId, Bits)) -> bool {
        self.0.same(&other.0) && self.1.same(&other.1)
    }
}

impl Compare for Port {
    fn same(&self, other: &Port) -> bool {
        self.width == other.width && self.name.same(&other.name)
    }
}

impl Compare for Ports {
    fn same(&self, other: &Ports) -> bool {
        same_list(self.inputs.as_slice(), other.inputs.as_slice())
            && same_list(self.outputs.as_slice(), other.outputs.as_slice())
    }
}

impl Compare for Node {
    fn same(&self, other: &Node) -> bool {
        match (self, other) {
            (Node::Input { port: a }, Node::Input { port: b }) => a == b,
            (Node::Wire { driver: a }, Node::Wire { driver: b }) => same_option(a, b),
            (Node::Const { value: a }, Node::Const { value: b }) => a.same(b),
            (
                Node::Two { op, a, b },
                Node::Two {
                    op: other_op,
                    a: other_a,
                    b: other_b,
                },
            ) => op == other_op && a.same(other_a) && b.same(other_b),
            (Node::Not { a }, Node::Not { a: b }) => a.same(b),
            (
                Node::Mux { sel, cases },
                Node::Mux {
                    sel: other_sel,
                    cases: other_cases,
                },
            ) => sel.same(other_sel) && cases.same(other_cases),
            (Node::Cat { parts: a }, Node::Cat { parts: b }) => a.same(b),
            (
                Node::Select { a, hi, lo },
                Node::Select {
                    a: other_a,
                    hi: other_hi,
                    lo: other_lo,
                },
            ) => a.same(other_a) && hi == other_hi && lo == other_lo,
            (
                Node::Reg {
                    next,
                    enable,
                    clear,
                    init,
                },
                Node::Reg {
                    next: other_next,
                    enable: other_enable,
                    clear: other_clear,
                    init: other_init,
                },
            ) => {
                next.same(other_next)
                    && same_option(enable, other_enable)
                    && same_option(clear, other_clear)
                    && init.same(other_init)
            }
            (
                Node::Read { mem, addr },
                Node::Read {
                    mem: other_mem,
                    addr: other_addr,
                },
            ) => mem.0 == other_mem.0 && addr.same(other_addr),
            (
                Node::InstOut { inst, port },
                Node::InstOut {
                    inst: other_inst,
                    port: other_port,
                },
            ) => inst.0 == other_inst.0 && port == other_port,
            (
                Node::Op { kind, args },
                Node::Op {
                    kind: other_kind,
                    args: other_args,
                },
            ) => kind == other_kind && args.same(other_args),
            _ => false,
        }
    }
}

impl Compare for NodeRow {
    fn same(&self, other: &NodeRow) -> bool {
        self.width == other.width
            && self.node.same(&other.node)
            && same_option(&self.label, &other.label)
    }
}

impl Compare for WritePort {
    fn same(&self, other: &WritePort) -> bool {
        self.enable.same(&other.enable)
            && self.addr.same(&other.addr)
            && self.value.same(&other.value)
    }
}

impl Compare for Memory {
    fn same(&self, other: &Memory) -> bool {
        self.size == other.size
            && self.width == other.width
            && same_list(self.writes.as_slice(), other.writes.as_slice())
            && same_option(&self.label, &other.label)
    }
}

impl Compare for Instance {
    fn same(&self, other: &Instance) -> bool {
        self.ports.same(&other.ports)
            && same_list(self.conns.as_slice(), other.conns.as_slice())
            && same_option(&self.label, &other.label)
    }
}

impl Compare for Circuit {
    fn same(&self, other: &Circuit) -> bool {
        self.ports().same(other.ports())
            && same_list(self.outputs(), other.outputs())
            && same_list(self.nodes(), other.nodes())
            && same_list(self.memories(), other.memories())
            && same_list(self.instances(), other.instances())
    }
}

/// Whether the forms are equal, in ports, outputs, nodes, memories, instances, labels and kids.
pub fn same(a: &Form, b: &Form) -> bool
    ensures { IsTrue result ↔ (a.now ≡ b.now) }
{
    a.circuit().same(b.circuit()) && same_list(a.kids(), b.kids())
}
