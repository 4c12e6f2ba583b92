ghost use Rattle.std.specs.Prelude.{◌≡◌, ◌≤◌, ◌<◌, ◌^◌, ◌≢◌, ℕ, IfSome, IfNone};
ghost use Rattle.hc_bits.specs.BitVector.{IsWidth};
ghost use Rattle.hc_bits.specs.Catalogue.{operation_name, find_kind, arity, result_width, bits_of};

/// The combinational operations of the catalogue, in its order.
#[derive(Clone, Copy, Debug, PartialEq, Eq, Drop)]
pub enum OpKind {
    Popcount,
    Clz,
    Rev,
    Min,
    Max,
    SatAdd,
}

impl OpKind {
    /// The operation of this name. None where the catalogue has no such name.
    pub fn find(name: &[u8]) -> Option<OpKind>
        ensures kind { result ≡ find_kind name.now }
        ensures named { IfSome result (λ kind. operation_name kind ≡ name.now) }
        ensures off { IfNone result ((kind : OpKind) → operation_name kind ≢ name.now) }
    {
        match name {
            b"popcount" => Some(OpKind::Popcount),
            b"clz" => Some(OpKind::Clz),
            b"rev" => Some(OpKind::Rev),
            b"min" => Some(OpKind::Min),
            b"max" => Some(OpKind::Max),
            b"satadd" => Some(OpKind::SatAdd),
            _ => None,
        }
    }

    /// Its name.
    pub fn name(self) -> &'static [u8]
        ensures { result.now ≡ operation_name self }
    {
        match self {
            OpKind::Popcount => b"popcount",
            OpKind::Clz => b"clz",
            OpKind::Rev => b"rev",
            OpKind::Min => b"min",
            OpKind::Max => b"max",
            OpKind::SatAdd => b"satadd",
        }
    }

    /// The number of arguments, all of one width.
    pub fn arity(self) -> u32
        ensures { result ≡ arity self }
    {
        match self {
            OpKind::Popcount | OpKind::Clz | OpKind::Rev => 1,
            OpKind::Min | OpKind::Max | OpKind::SatAdd => 2,
        }
    }

    /// The width in bits of the result, for arguments of `width` bits.
    pub fn result_width(self, width: u32) -> u32
        requires { IsWidth width }
        ensures { result ≡ result_width self width }
    {
        match self {
            OpKind::Popcount | OpKind::Clz => bits_of(u64::from(width)),
            OpKind::Rev | OpKind::Min | OpKind::Max | OpKind::SatAdd => width,
        }
    }
}

/// The least number of bits, at least one, that `number` fits.
pub fn bits_of(number: u64) -> u32
    ensures value { result ≡ bits_of number }
    ensures some { 1 ≤ result }
    ensures fits { number < 2 ^ result }
    ensures least { (k : ℕ) → 1 ≤ k → number < 2 ^ k → result ≤ k }
{
    (u64::BITS - number.leading_zeros()).max(1)
}
