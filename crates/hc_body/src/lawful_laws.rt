ghost use Rattle.std.specs.Prelude.{List, Ok, Result, ℤ};
ghost use Rattle.hc_fault.specs.declared.fault.Fault.{Fault};
ghost use Rattle.hc_fault.specs.declared.fault.Path.{Path};
ghost use Rattle.hc_lang.specs.declared.tree.CircuitText.{CircuitText};
ghost use Rattle.hc_lang.specs.declared.tree.Design.{Design};
ghost use Rattle.hc_signal.specs.Lawful.{IsLawful};
ghost use Rattle.hc_body.specs.declared.kinds.Body.{Body};
ghost use Rattle.hc_body.specs.BodyOf.{BodyOf};

use hc_check::one_verdict;
use hc_statements::form_laws::{heads_make_form, statements_keep_form};
use hc_unfold::form_laws::formed_graphs_are_lawful;

/// The circuit of a body is lawful.
pub fn bodies_are_lawful()
    ensures { (d : Design) (c : CircuitText) (args : List ℤ) (path : Path) (b : Body) → BodyOf d c args path (Ok b) → IsLawful b.circuit }
{
    statements_keep_form();
    heads_make_form();
    formed_graphs_are_lawful();
}

/// A call of a circuit gives a body or a fault.
pub fn calls_have_answers()
    ensures { (d : Design) (c : CircuitText) (args : List ℤ) (path : Path) → (r : Result Body Fault) × BodyOf d c args path r }
{
    statements_keep_form();
    heads_make_form();
    formed_graphs_are_lawful();
    one_verdict();
}
