ghost use Rattle.std.specs.Prelude.{◌≤◌, ℕ, List, length};
ghost use Rattle.hc_signal.specs.Graph.{Graph};
ghost use Rattle.hc_signal.specs.Lawful.{IsLawful};
ghost use Rattle.hc_signal.specs.Tree.{Tree, graph};
ghost use Rattle.hc_verilog.specs.ModuleText.{IsModuleText, IsTreeText};

use hc_canon::canonical_forms_exist;
use hc_naming::names_can_be_taken;

/// A lawful circuit has a module under each title, and so has a tree; ports have numbers of 32 bits.
pub fn modules_have_texts()
    ensures circuit { (g : Graph) (modules : ℕ → List ℕ) (title : List ℕ) → IsLawful g → length g.ports.inputs ≤ 4294967296 → length g.ports.outputs ≤ 4294967296 → (text : List ℕ) × IsModuleText g modules title text }
    ensures tree { (t : Tree) (modules : ℕ → List ℕ) (title : List ℕ) → IsLawful (graph t) → length (graph t).ports.inputs ≤ 4294967296 → length (graph t).ports.outputs ≤ 4294967296 → (text : List ℕ) × IsTreeText t modules title text }
{
    names_can_be_taken();
    canonical_forms_exist();
}
