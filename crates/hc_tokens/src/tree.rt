use hc_fault::Name;
use sqlite_items::Boxed;

/// The operators of numbers.
#[derive(Clone, Copy, Debug, PartialEq, Eq, Drop)]
pub enum NumOp {
    Add,
    Sub,
    Mul,
    Div,
    Rem,
    Eq,
    Ne,
    Lt,
    Le,
    Gt,
    Ge,
}

/// A number as it is written.
#[derive(Drop)]
pub enum Num {
    Int(i64),
    Name(Name),
    Neg(Boxed<Num>),
    Two {
        op: NumOp,
        a: Boxed<Num>,
        b: Boxed<Num>,
    },
    Bits(Boxed<Num>),
}
