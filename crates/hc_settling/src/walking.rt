ghost use Rattle.std.specs.Prelude.{◌≡◌, ℕ, true, List};
ghost use Rattle.hc_bench.specs.Simulation.{State, IsSettled};
ghost use Rattle.hc_signal.specs.Occurrences.{Occurrence, IsReachedPath, graph_at};
ghost use Rattle.hc_signal.specs.Tree.{IsWhole, Tree};
ghost use Rattle.hc_settling.specs.Known.{AreMarked, ArePlans, IsKnown, KeepsConstants, KeepsInputs};
ghost use Rattle.hc_steps.specs.Tables.{Tables};
ghost use Rattle.hc_settling.specs.Tables.{AreTablesOf};
ghost use Rattle.hc_settling.specs.Settling.{Board, IsCalled, IsSound, Settles, Walks};
ghost use Rattle.hc_steps.specs.Plan.{Begins, Fact, Part, facts, steps_at};

/// A walk along a stale part of an instance keeps the marks right and right numbers right, and makes all facts of the part
/// known, where what the part needs is known.
pub fn walks_are_sound()
    ensures { (t : Tree) (plans : List ℕ → List Part) (tables : List ℕ → Tables) (state : State) (inputs : List ℕ) (v : Occurrence → ℕ) → IsWhole t → ArePlans t plans → AreTablesOf t plans tables → IsSettled t state inputs v
        → (p : List ℕ) (part : ℕ) (old new : Board) → IsReachedPath t p → old.stale p part ≡ true → IsCalled plans tables old.stale p part → AreMarked t plans state inputs old.vals old.stale → KeepsConstants t old.vals
        → ((f : Fact) → Begins (graph_at t p) (plans p) part f → IsKnown t plans old.vals v p f)
        → Walks t plans tables state inputs p part (steps_at (plans p) part) old new → IsSound t plans state inputs v old new p (facts (steps_at (plans p) part)) }
{}

/// A settling of the top, from right marks, leaves numbers that are settled.
pub fn settlings_settle()
    ensures { (t : Tree) (plans : List ℕ → List Part) (tables : List ℕ → Tables) (state : State) (inputs : List ℕ) (v : Occurrence → ℕ) → IsWhole t → ArePlans t plans → AreTablesOf t plans tables → IsSettled t state inputs v
        → (old new : Board) → Settles t plans tables state inputs 0 old new → AreMarked t plans state inputs old.vals old.stale → KeepsConstants t old.vals → KeepsInputs t inputs old.vals
        → IsSettled t state inputs new.vals × KeepsConstants t new.vals × KeepsInputs t inputs new.vals }
{}
