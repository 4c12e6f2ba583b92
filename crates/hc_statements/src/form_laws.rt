ghost use Rattle.std.specs.Prelude.{◌≡◌, ℕ, List, Ok, ℤ};
ghost use Rattle.hc_lang.specs.declared.tree.CircuitText.{CircuitText};
ghost use Rattle.hc_lang.specs.declared.tree.Design.{Design};
ghost use Rattle.hc_statements.specs.Elaborated.{statement_step};
ghost use Rattle.hc_statements.specs.Formed.{IsFormedBody};
ghost use Rattle.hc_statements.specs.PortWidths.{port_widths};
ghost use Rattle.hc_statements.specs.Statements.{open_heads};
ghost use Rattle.hc_statements.specs.Steps.{Elaborating, nothing};
ghost use Rattle.hc_statements.specs.Unrolled.{Statement};

use hc_unfold::form_laws::{changes_keep_form, drawn_signals_keep_form, numbers_are_vectors};

/// Each statement keeps a body under way formed.
pub fn statements_keep_form()
    ensures { (d : Design) (line : ℕ) (s : Statement) (e f : Elaborating) → IsFormedBody e → statement_step d line s e ≡ Ok (f, tt) → IsFormedBody f }
{
    changes_keep_form();
    drawn_signals_keep_form();
    numbers_are_vectors();
}

/// The heads of a circuit make a formed body.
pub fn heads_make_form()
    ensures { (c : CircuitText) (args : List ℤ) (widths : List ℕ) → port_widths c args ≡ Ok widths → IsFormedBody (open_heads c.heads widths nothing) }
{
    changes_keep_form();
    drawn_signals_keep_form();
    numbers_are_vectors();
}
