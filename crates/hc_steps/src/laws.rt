ghost use Rattle.std.specs.Prelude.{◌++◌, ◌⊎◌, ℕ, List, [], ◌∷◌};
ghost use Rattle.hc_steps.specs.Crossing.{child, parent, child_plan, parent_plan};
ghost use Rattle.hc_steps.specs.Plan.{AreReady, Begins, IsPlan, IsReady, Part, Step, facts};
ghost use Rattle.hc_signal.specs.Graph.{Graph};
ghost use Rattle.hc_signal.specs.Member.{Has};

/// An instance that two ways lead through one after the other has a plan, and so has the circuit that crosses it.
pub fn crossings_have_plans()
    ensures child { IsPlan child (λ i. child) (λ i. []) child_plan }
    ensures parent { IsPlan parent (λ i. child) (λ i. child_plan) parent_plan }
{}

/// A step that is ready after the steps of a part may be pushed behind them.
pub fn pushes_keep_ready()
    ensures { (g : Graph) (graphs : ℕ → Graph) (plans : ℕ → List Part) (plan : List Part) (j : ℕ) (steps : List Step) (s : Step) → AreReady g graphs plans (Begins g plan j) [] steps
        → IsReady g graphs plans (λ f. Begins g plan j f ⊎ Has (facts steps) f) s → AreReady g graphs plans (Begins g plan j) [] (steps ++ s ∷ []) }
{}
