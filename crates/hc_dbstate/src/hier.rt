ghost use Rattle.std.specs.Prelude.{◌≡◌, List, [], ◌∷◌, ◌++◌};
ghost use Rattle.hc_signal.specs.Member.{Has};
ghost use Rattle.hc_dbstate.specs.declared.hier.Hier.{Hier};
ghost use Rattle.hc_dbstate.specs.Elaboration.{CallRow, CallView, hier_view, walk};

use hc_canon::EntryId;
use hc_fault::{ItemList, Name};
use hc_paths::kinds::Paths;
use std::sync::Arc;

/// One elaborated call: the name that it requests for its module, its entry in the database, the paths of its circuit,
/// the sums over its tree, itself counted, and the calls of its instances in the order of their lines, the unreached
/// ones included. `weight` counts rows and statements; `words` counts words of memory. Equal calls may share a hierarchy.
#[derive(Drop)]
pub struct Hier {
    pub name: Name,
    pub entry: EntryId,
    pub paths: Paths,
    pub instances: u32,
    pub weight: u64,
    pub words: u64,
    pub kids: ItemList<Arc<Hier>>,
}

/// The walk of a hierarchy ends with its own call, and has the calls of the instances of each call in it.
pub fn walks_are_whole()
    ensures own { (h : Hier) → (calls : List CallView) × (last : CallView) × (walk h ≡ calls ++ last ∷ []) × (last.own ≡ (hier_view h).own) }
    ensures kids { (h : Hier) (call : CallView) (kid : CallRow) → Has (walk h) call → Has call.kids kid → (other : CallView) × Has (walk h) other × (other.own ≡ kid) }
{}
