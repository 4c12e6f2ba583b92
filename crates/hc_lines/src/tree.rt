use hc_fault::{ItemList, Name};
use hc_sigtext::{IdentText, Sig};
use hc_tokens::Num;
use sqlite_items::Boxed;

/// A statement and the number of its line.
#[cycle(stmt)]
#[derive(Drop)]
pub struct Stmt {
    pub line: u32,
    pub what: What,
}

/// What a statement says. A block holds its statements.
#[cycle(stmt)]
#[derive(Drop)]
pub enum What {
    Let {
        to: IdentText,
        sig: Sig,
    },
    Wire {
        to: IdentText,
        width: Num,
    },
    Assign {
        to: IdentText,
        sig: Sig,
    },
    Label {
        to: IdentText,
        label: Name,
    },
    Reg {
        to: IdentText,
        next: Boxed<Sig>,
        enable: Option<Boxed<Sig>>,
        clear: Option<Boxed<(Sig, Num)>>,
        init: Option<Num>,
    },
    Memory {
        to: IdentText,
        size: Num,
        width: Num,
    },
    Write {
        to: IdentText,
        enable: Boxed<Sig>,
        addr: Boxed<Sig>,
        value: Boxed<Sig>,
    },
    Inst {
        to: IdentText,
        of: Name,
        args: ItemList<Num>,
        conns: ItemList<(Name, Sig)>,
    },
    For {
        var: Name,
        from: Num,
        upto: Num,
        body: ItemList<Stmt>,
    },
    If {
        cond: Num,
        yes: ItemList<Stmt>,
        no: ItemList<Stmt>,
    },
}

/// A value that a bench sets: a number, or a literal with its width.
#[derive(Drop)]
pub enum BenchValue {
    Plain(i64),
    Sized { width: i64, value: u128 },
}

/// What a line of a bench says.
#[derive(Drop)]
pub enum BenchWhat {
    Set { port: Name, value: BenchValue },
    Cycle { times: i64 },
    Reset,
}
