ghost use Rattle.std.specs.Prelude.{◌≡◌, map, slice_get};
ghost use Rattle.hc_bits.specs.Catalogue.{catalogue};

use crate::comb_op::CombOp;
use hc_bits::OpKind;

/// One operation of each kind, in the catalogue's order.
#[derive(Drop)]
pub struct OpTable {
    ops: Vec<CombOp>,
    ghost complete: { map (λ op. op.kind) ops.items ≡ catalogue },
}

impl OpTable {
    /// The table of these operations: one of each kind, in the catalogue's order.
    pub fn new(ops: Vec<CombOp>) -> OpTable
        requires { map (λ op. op.kind) ops.items ≡ catalogue }
    {
        OpTable { ops }
    }

    /// The operation of this kind.
    pub fn find(&self, kind: OpKind) -> &CombOp
        ensures { result.now.kind ≡ kind }
    {
        &self.ops[place(kind)]
    }
}

/// The place of a kind in the catalogue's order.
fn place(kind: OpKind) -> usize
    ensures { slice_get catalogue result ≡ Some kind }
{
    match kind {
        OpKind::Popcount => 0,
        OpKind::Clz => 1,
        OpKind::Rev => 2,
        OpKind::Min => 3,
        OpKind::Max => 4,
        OpKind::SatAdd => 5,
    }
}
