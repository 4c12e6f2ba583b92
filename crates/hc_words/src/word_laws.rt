ghost use Rattle.std.specs.Prelude.{◌≤◌, ◌⊎◌, ℕ, List};
ghost use Rattle.hc_words.specs.Jobs.{HasNoJob, IsJob};
ghost use Rattle.hc_words.specs.declared.job.Job.{Job};

/// Words have a job or none, and the job is one with 1 to 64 workers.
pub fn words_are_decided()
    ensures job { (words : List (List ℕ)) → HasNoJob words ⊎ ((job : Job) × IsJob words job) }
    ensures workers { (words : List (List ℕ)) (job : Job) → IsJob words job → (1 ≤ job.workers) × (job.workers ≤ 64) }
{}
