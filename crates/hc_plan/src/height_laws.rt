//! Laws of the heights of rows.
ghost use Rattle.std.specs.Prelude.{◌≡◌, ◌<◌, ◌≤◌, ℕ, List, Option, Some, slice_get};
ghost use Rattle.hc_fault.specs.declared.fault.Fault.{Fault};
ghost use Rattle.hc_lang.specs.declared.tree.Design.{Design};
ghost use Rattle.hc_plan.specs.Plan.{IsPlanOf};
ghost use Rattle.hc_plan.specs.declared.kinds.PlanRow.{PlanRow};
ghost use Rattle.hc_signal.specs.Member.{Has};

use hc_body::laws::{bodies_are_single, bodies_stay};

/// Each row of a plan has a height of 1 or more, and the rows of its children are lower.
pub fn kids_are_lower()
    ensures some { (d : Design) (rows : List PlanRow) (stop : Option Fault) (k : ℕ) (row : PlanRow) → IsPlanOf d rows stop → slice_get rows k ≡ Some row → 1 ≤ row.height }
    ensures lower { (d : Design) (rows : List PlanRow) (stop : Option Fault) (k j : ℕ) (row kid : PlanRow) → IsPlanOf d rows stop → slice_get rows k ≡ Some row → Has row.kids j → slice_get rows j ≡ Some kid → kid.height < row.height }
{
    bodies_are_single();
    bodies_stay();
}
