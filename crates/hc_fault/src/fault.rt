ghost use Rattle.std.specs.Prelude.{◌≡◌, ◌++◌, ◌∷◌, [], IfOk, OnOk};

use crate::item_list::ItemList;
use crate::memory::NoMemory;
use crate::name::Name;
use std::alloc::Global;

/// A name, with an index where it has one: `x` and `x[0]` are different.
#[derive(Debug, Drop)]
pub struct Ident {
    pub name: Name,
    pub index: Option<i64>,
}

impl Ident {
    /// A copy of its own memory.
    pub fn copy(&self, alloc: Global) -> Result<Ident, NoMemory>
        ensures { IfOk result (λ ident. ident ≡ self.now) }
    {
        let name = Name::new(alloc, self.name.bytes())?;
        Ok(Ident {
            name,
            index: self.index,
        })
    }
}

/// The instances from the top down to a call. The top's path is empty.
#[derive(Debug, Drop)]
pub struct Path {
    pub steps: ItemList<Ident>,
}

impl Path {
    /// The path with one step more.
    pub fn child(&self, alloc: Global, step: &Ident) -> Result<Path, NoMemory>
        ensures { IfOk result (λ path. path.steps ≡ self.now.steps ++ step.now ∷ []) }
    {
        let mut steps = ItemList::new(alloc);
        for own in self.steps.as_slice() {
            add(&mut steps, own.copy(alloc)?)?;
        }
        add(&mut steps, step.copy(alloc)?)?;
        Ok(Path { steps })
    }
}

/// Adds a step at the end.
fn add(steps: &mut ItemList<Ident>, step: Ident) -> Result<(), NoMemory>
    ensures { OnOk result (steps.new ≡ steps.old ++ step ∷ []) }
{
    match steps.push(step) {
        Ok(()) => Ok(()),
        Err((_, refused)) => Err(refused),
    }
}

/// The kinds of fault, in the order of their numbers.
#[derive(Clone, Copy, Debug, PartialEq, Eq, Drop)]
pub enum FaultKind {
    TooLong,
    NotAscii,
    Syntax,
    Misplaced,
    Unclosed,
    RepeatedCircuit,
    ReservedName,
    NoTop,
    UnknownCircuit,
    ArgCount,
    Number,
    Width,
    UnknownName,
    RepeatedName,
    WidthMismatch,
    SelectRange,
    MuxCount,
    ConstRange,
    MemorySize,
    DrivenTwice,
    UnknownPort,
    RepeatedPort,
    MissingPort,
    NoOutputs,
    PortCount,
    TooManyStatements,
    CircuitWeight,
    Undriven,
    TooDeep,
    TooManyInstances,
    DesignWeight,
    DesignWords,
    CombLoop,
    BenchPort,
    BenchValue,
    TooManyCycles,
    UnknownOp,
}

/// What is wrong with a design: the kind, the line of the text (0 where no line is meant), and the path of the call
/// in whose lines it stands. Faults of the text and of the bench have no path.
#[derive(Debug, Drop)]
pub struct Fault {
    pub kind: FaultKind,
    pub line: u32,
    pub path: Option<Path>,
}

/// Why a call gave no answer.
#[derive(Debug, Drop)]
pub enum Refused {
    Fault(Fault),
    NoMemory,
}

impl From<NoMemory> for Refused {
    ghost use Rattle.std.specs.Prelude.{◌≡◌};
    ghost use Rattle.hc_fault.specs.declared.fault.Refused.TheVariants.{NoMemory};

    ghost from_gives = { λ _ refused. refused ≡ NoMemory };

    fn from(_error: NoMemory) -> Refused {
        Refused::NoMemory
    }
}
