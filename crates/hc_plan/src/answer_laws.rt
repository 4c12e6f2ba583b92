ghost use Rattle.std.specs.Prelude.{Result};
ghost use Rattle.hc_fault.specs.declared.fault.Fault.{Fault};
ghost use Rattle.hc_lang.specs.declared.tree.Design.{Design};
ghost use Rattle.hc_plan.specs.Elaborates.{DesignElaborates, Elaborated};

use hc_body::lawful_laws::calls_have_answers;
use hc_body::laws::{bodies_have_their_children, calls_of_the_top};

/// No design is without an answer: it elaborates to a whole or to a fault.
pub fn designs_have_answers()
    ensures { (d : Design) → ((r : Result Elaborated Fault) → DesignElaborates d r → ⊥) → ⊥ }
{
    calls_have_answers();
    calls_of_the_top();
    bodies_have_their_children();
}
