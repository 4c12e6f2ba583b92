//! Laws of summaries.
ghost use Rattle.std.specs.Prelude.{◌≡◌, ℕ, List};
ghost use Rattle.hc_bench.specs.Listing.{CycleRow};
ghost use Rattle.hc_plan.specs.Elaborates.{Elaborated};
ghost use Rattle.hc_summary.specs.Summary.{IsSummary};

/// A design and its rows have one summary.
pub fn summaries_are_single()
    ensures { (e : Elaborated) (rows : List CycleRow) (a b : List ℕ) → IsSummary e rows a → IsSummary e rows b → a ≡ b }
{}
