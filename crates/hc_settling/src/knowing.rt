ghost use Rattle.std.specs.Prelude.{◌≡◌, ℕ, Bool, true, false, List, [], ◌∷◌};
ghost use Rattle.hc_bench.specs.Simulation.{State, IsSettled};
ghost use Rattle.hc_signal.specs.Member.{Has};
ghost use Rattle.hc_signal.specs.Occurrences.{Occurrence, IsReachedPath, graph_at};
ghost use Rattle.hc_signal.specs.Tree.{IsWhole, Tree};
ghost use Rattle.hc_settling.specs.Known.{AreMarked, ArePlans, IsBalanced, IsKnown, IsRight, IsStill, IsTaken, KeepsConstants, KeepsInputs};
ghost use Rattle.hc_steps.specs.Plan.{Begins, Fact, IsReady, Part, Step, fact, facts, steps_at};

/// A part that is not marked is still, and a still part is right where what it needs is known.
pub fn unmarked_parts_are_right()
    ensures still { (t : Tree) (plans : List ℕ → List Part) (state : State) (inputs : List ℕ) (vals : Occurrence → ℕ) (stale : List ℕ → ℕ → Bool) → IsWhole t → ArePlans t plans → AreMarked t plans state inputs vals stale
        → (p : List ℕ) (part : ℕ) → IsReachedPath t p → stale p part ≡ false → IsStill t plans state inputs vals p part }
    ensures right { (t : Tree) (plans : List ℕ → List Part) (state : State) (inputs : List ℕ) (vals v : Occurrence → ℕ) → ArePlans t plans → IsSettled t state inputs v → KeepsConstants t vals
        → (p : List ℕ) (part : ℕ) → IsReachedPath t p → IsStill t plans state inputs vals p part → ((f : Fact) → Begins (graph_at t p) (plans p) part f → IsKnown t plans vals v p f)
        → (f : Fact) → Has (facts (steps_at (plans p) part)) f → IsKnown t plans vals v p f }
{}

/// A step that is taken over known facts makes its own known, and what is known stays so where right numbers stay right.
pub fn steps_make_known()
    ensures taken { (t : Tree) (plans : List ℕ → List Part) (state : State) (inputs : List ℕ) (vals new v : Occurrence → ℕ) → IsSettled t state inputs v → KeepsConstants t vals → (p : List ℕ) → IsReachedPath t p
        → (known : List Fact) → ((f : Fact) → Has known f → IsKnown t plans vals v p f) → (s : Step) → IsReady (graph_at t p) (λ i. graph_at t (i ∷ p)) (λ i. plans (i ∷ p)) (Has known) s
        → IsTaken t plans state inputs vals new v p s → IsKnown t plans new v p (fact s) }
    ensures stays { (t : Tree) (plans : List ℕ → List Part) (old new v : Occurrence → ℕ) → ((s : Occurrence) → IsRight old v t s → IsRight new v t s) → (p : List ℕ) (f : Fact) → IsKnown t plans old v p f → IsKnown t plans new v p f }
{}

/// Where all parts of the top are known, the kept numbers are settled; then no step of any part would change anything, and all
/// marks may go. Where all parts are marked, nothing is claimed.
pub fn known_tops_settle()
    ensures settled { (t : Tree) (plans : List ℕ → List Part) (state : State) (inputs : List ℕ) (vals v : Occurrence → ℕ) → IsWhole t → ArePlans t plans → IsSettled t state inputs v → KeepsConstants t vals → KeepsInputs t inputs vals
        → ((part : ℕ) (f : Fact) → Has (facts (steps_at (plans []) part)) f → IsKnown t plans vals v [] f) → IsSettled t state inputs vals }
    ensures balanced { (t : Tree) (plans : List ℕ → List Part) (state : State) (inputs : List ℕ) (vals : Occurrence → ℕ) → ArePlans t plans → IsSettled t state inputs vals
        → (p : List ℕ) → IsReachedPath t p → (part : ℕ) (s : Step) → Has (steps_at (plans p) part) s → IsBalanced t state inputs vals p s }
    ensures cleared { (t : Tree) (plans : List ℕ → List Part) (state : State) (inputs : List ℕ) (vals : Occurrence → ℕ) → ArePlans t plans → IsSettled t state inputs vals → AreMarked t plans state inputs vals (λ p part. false) }
    ensures opening { (t : Tree) (plans : List ℕ → List Part) (state : State) (inputs : List ℕ) (vals : Occurrence → ℕ) → AreMarked t plans state inputs vals (λ p part. true) }
{}
