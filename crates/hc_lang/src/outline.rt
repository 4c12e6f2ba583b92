use crate::stack::Stack;
use crate::tree::{BenchLine, CircuitText, Head, TopLine};
use hc_fault::{ItemList, Name};
use hc_lines::Stmt;
use hc_tokens::Num;

/// What opened a block. At its `else` a choice keeps the statements of its first part.
#[derive(Drop)]
pub enum Opening {
    For { var: Name, from: Num, upto: Num },
    If { cond: Num },
    Else { cond: Num, yes: ItemList<Stmt> },
}

/// An open block: the number of the line that opened it, and the statements before that line in the block around it.
#[derive(Drop)]
pub struct Block {
    pub line: u32,
    pub opening: Opening,
    pub before: ItemList<Stmt>,
}

/// A circuit that may go on: its open blocks, and the statements so far of the innermost one.
#[derive(Drop)]
pub struct OpenCircuit {
    pub line: u32,
    pub name: Name,
    pub params: ItemList<Name>,
    pub heads: ItemList<Head>,
    pub blocks: Stack<Block>,
    pub body: ItemList<Stmt>,
}

/// Where the lines so far end: before all, in a circuit, past the `top` line, in the bench, past the bench.
#[derive(Drop)]
pub enum Place {
    Start,
    Circuit(OpenCircuit),
    Top(TopLine),
    Bench {
        top: TopLine,
        line: u32,
        steps: ItemList<BenchLine>,
    },
    End {
        top: TopLine,
        steps: ItemList<BenchLine>,
    },
}

/// The lines of a text so far: the circuits before, and the place.
#[derive(Drop)]
pub struct Outline {
    pub circuits: ItemList<CircuitText>,
    pub place: Place,
}
