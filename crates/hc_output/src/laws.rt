ghost use Rattle.std.specs.Prelude.{◌≡◌, ℕ, Bool, List};
ghost use Rattle.hc_bench.specs.Listing.{CycleRow};
ghost use Rattle.hc_plan.specs.Elaborates.{Elaborated};
ghost use Rattle.hc_output.specs.Output.{IsOutput};
ghost use Rattle.hc_signal.specs.Tree.{IsWhole};
ghost use Rattle.hc_words.specs.declared.job.Verb.{Verb};

use hc_flattext::flat_texts_are_single;
use hc_modules::texts_are_single;
use hc_summary::summaries_are_single;

/// A command writes one output for an elaborated design and the rows of its run.
pub fn outputs_are_single()
    ensures { (verb : Verb) (flat : Bool) (title : List ℕ) (e : Elaborated) (rows : List CycleRow) (a b : List ℕ) → IsWhole e.tree → IsOutput verb flat title e rows a → IsOutput verb flat title e rows b → a ≡ b }
{
    texts_are_single();
    flat_texts_are_single();
    summaries_are_single();
}
