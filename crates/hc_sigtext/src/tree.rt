use hc_fault::{ItemList, Name};
use hc_tokens::Num;
use sqlite_items::Boxed;

/// A name as it is written, with an index where it has one.
#[derive(Drop)]
pub struct IdentText {
    pub name: Name,
    pub index: Option<Num>,
}

/// The words of calls. `read`, `op` and `bits` have forms of their own.
#[derive(Clone, Copy, Debug, PartialEq, Eq, Drop)]
pub enum CallWord {
    Const,
    Add,
    Sub,
    Mulu,
    Muls,
    And,
    Or,
    Xor,
    Eq,
    Lt,
    Not,
    Mux,
    Cat,
    Select,
    Ne,
    Gt,
    Le,
    Ge,
    Lts,
    Mux2,
    Uresize,
    Sresize,
    Sll,
    Srl,
    Sra,
    Repeat,
    Msb,
    Lsb,
}

/// A signal as it is written.
#[derive(Drop)]
pub enum Sig {
    Sized {
        width: i64,
        value: u128,
    },
    Name {
        ident: IdentText,
    },
    Port {
        inst: IdentText,
        port: Name,
    },
    Call {
        word: CallWord,
        sigs: ItemList<Sig>,
        nums: ItemList<Num>,
    },
    Read {
        mem: IdentText,
        addr: Boxed<Sig>,
    },
    Op {
        name: Name,
        sigs: ItemList<Sig>,
    },
}
