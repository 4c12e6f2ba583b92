ghost use Rattle.std.specs.Prelude.{◌≡◌, ℕ, List};
ghost use Rattle.hc_signal.specs.Graph.{inst, Graph, Reached};
ghost use Rattle.hc_signal.specs.Tree.{graph, Tree};
ghost use Rattle.hc_verilog.specs.ModuleText.{IsModuleText, IsTreeText};

/// A circuit has one module under a title, where each instance has its module's name.
pub fn module_texts_are_single()
    ensures { (g : Graph) (modules : ℕ → List ℕ) (title a b : List ℕ) → IsModuleText g modules title a → IsModuleText g modules title b → a ≡ b }
{}

/// A tree has one module under a title, where each instance that is reached has its module's name.
pub fn tree_texts_are_single()
    ensures { (t : Tree) (modules others : ℕ → List ℕ) (title a b : List ℕ) → ((i : ℕ) → Reached (graph t) (inst i) → modules i ≡ others i) → IsTreeText t modules title a → IsTreeText t others title b → a ≡ b }
{}
