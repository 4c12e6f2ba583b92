ghost use Rattle.std.specs.Prelude.{◌≤◌, List, Ok, length};
ghost use Rattle.hc_lang.specs.declared.tree.Design.{Design};
ghost use Rattle.hc_plan.specs.Elaborates.{DesignElaborates, Elaborated, ElaboratedCall};
ghost use Rattle.hc_signal.specs.Checked.{IsChecked};
ghost use Rattle.hc_signal.specs.Member.{Has};
ghost use Rattle.hc_signal.specs.Tree.{IsWhole, graph};

use hc_body::lawful_laws::bodies_are_lawful;
use hc_body::laws::{bodies_have_their_children, bodies_have_their_ports};

/// The calls of an elaborated design are as few as its instances may be. Each has a whole tree over a checked circuit.
pub fn elaborated_calls_are_lawful()
    ensures few { (d : Design) (e : Elaborated) → DesignElaborates d (Ok e) → length e.calls ≤ 65536 }
    ensures whole { (d : Design) (e : Elaborated) → DesignElaborates d (Ok e) → (x : ElaboratedCall) → Has e.calls x → IsWhole x.tree }
    ensures checked { (d : Design) (e : Elaborated) → DesignElaborates d (Ok e) → (x : ElaboratedCall) → Has e.calls x → IsChecked (graph x.tree) }
{
    bodies_are_lawful();
    bodies_have_their_ports();
    bodies_have_their_children();
}
