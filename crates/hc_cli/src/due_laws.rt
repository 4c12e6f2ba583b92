//! What is due for words and an input: something, and one thing alone.
ghost use Rattle.std.specs.Prelude.{◌≡◌, ℕ, List};
ghost use Rattle.hc_cli.specs.Due.{Due, IsDue};

use hc_bench::steps_are_for_the_inputs;
use hc_lang::texts_have_one_answer;
use hc_output::{flat_texts_exist, outputs_are_single, verilog_texts_exist};
use hc_plan::{
    designs_elaborate_once, designs_have_answers, elaborated_trees, elaborated_trees_are_whole,
};
use hc_summary::summaries_exist;
use hc_traces::{benches_have_runs, runs_are_single};
use hc_words::{one_job, words_are_decided};

/// For each list of words and each input at most one status, one output and one list of calls are due.
pub fn one_due()
    ensures { (words : List (List ℕ)) (input : List ℕ) (d e : Due) → IsDue words input d → IsDue words input e → d ≡ e }
{
    one_job();
    texts_have_one_answer();
    designs_elaborate_once();
    elaborated_trees();
    elaborated_trees_are_whole();
    runs_are_single();
    outputs_are_single();
}

/// For each list of words and each input something is due: it is refuted that nothing is.
pub fn something_is_due()
    ensures { (words : List (List ℕ)) (input : List ℕ) → ((d : Due) → IsDue words input d → ⊥) → ⊥ }
{
    words_are_decided();
    texts_have_one_answer();
    designs_have_answers();
    elaborated_trees();
    elaborated_trees_are_whole();
    steps_are_for_the_inputs();
    benches_have_runs();
    verilog_texts_exist();
    flat_texts_exist();
    summaries_exist();
}
