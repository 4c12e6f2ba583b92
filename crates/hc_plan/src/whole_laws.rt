ghost use Rattle.std.specs.Prelude.{[], ◌≡◌, ◌≤◌, ◌⊎◌, ℕ, List, Ok, Some, slice_get};
ghost use Rattle.hc_lang.specs.declared.tree.Design.{Design};
ghost use Rattle.hc_plan.specs.Elaborates.{DesignElaborates, Elaborated, ElaboratedCall};
ghost use Rattle.hc_plan.specs.Light.{tree_weight};
ghost use Rattle.hc_signal.specs.Checked.{IsChecked};
ghost use Rattle.hc_signal.specs.Member.{Has};
ghost use Rattle.hc_signal.specs.declared.signal.Instance.{Instance};
ghost use Rattle.hc_signal.specs.Occurrences.{graph_at, tree_at};
ghost use Rattle.hc_signal.specs.Tree.{IsWhole, graph, kid};

use hc_body::lawful_laws::bodies_are_lawful;
use hc_body::laws::{bodies_have_their_children, bodies_have_their_ports};

/// The tree of an elaborated design is whole.
pub fn elaborated_trees_are_whole()
    ensures { (d : Design) (e : Elaborated) → DesignElaborates d (Ok e) → IsWhole e.tree }
{
    bodies_are_lawful();
    bodies_have_their_ports();
    bodies_have_their_children();
}

/// Each circuit of the tree of an elaborated design is checked.
pub fn elaborated_circuits_are_checked()
    ensures { (d : Design) (e : Elaborated) → DesignElaborates d (Ok e) → (path : List ℕ) → IsWhole (tree_at e.tree path) → IsChecked (graph_at e.tree path) }
{}

/// The tree of an elaborated design has no instances, or the weight of a design at most.
pub fn elaborated_trees_are_light()
    ensures { (d : Design) (e : Elaborated) → DesignElaborates d (Ok e) → ((graph e.tree).instances ≡ []) ⊎ (tree_weight e.tree ≤ 4194304) }
{
    bodies_have_their_children();
}

/// The tree of each instance of a call of an elaborated design is that of one of its calls.
pub fn elaborated_calls_are_closed()
    ensures { (d : Design) (e : Elaborated) → DesignElaborates d (Ok e) → (x : ElaboratedCall) → Has e.calls x → (i : ℕ) (it : Instance) → slice_get (graph x.tree).instances i ≡ Some it → (y : ElaboratedCall) × Has e.calls y × (y.tree ≡ kid x.tree i) }
{
    bodies_have_their_children();
}
