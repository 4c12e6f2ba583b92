ghost use Rattle.std.specs.Prelude.{◌≡◌, ℕ, Bool, true, false, List, ◌∷◌, Some};
ghost use Rattle.hc_bench.specs.Simulation.{State};
ghost use Rattle.hc_signal.specs.Member.{Has};
ghost use Rattle.hc_signal.specs.Occurrences.{Occurrence, IsReachedOccurrence, IsReachedPath, NodeIs, connection, graph_at};
ghost use Rattle.hc_signal.specs.declared.signal.NodeId.{NodeId};
ghost use Rattle.hc_signal.specs.declared.signal.Node.{Node};
ghost use Rattle.hc_signal.specs.declared.signal.Node.TheVariants.{Input};
ghost use Rattle.hc_signal.specs.Tree.{IsWhole, Tree};
ghost use Rattle.hc_settling.specs.Known.{at_path, AreMarked, ArePlans};
ghost use Rattle.hc_steps.specs.Tables.{row, Reads, Tables, Takes};
ghost use Rattle.hc_settling.specs.Tables.{AreTablesOf, IsSameState};
ghost use Rattle.hc_steps.specs.Plan.{Part, facts, made, make, pass, run, steps_at};

/// The marks stay right where a number is put, if the parts that compute it, read it, take it from outside or pass to it are
/// stale. Parts that pass an input which is not its connection are stale. More parts may be marked, if those that run them
/// are, too.
pub fn puts_keep_marks()
    ensures put { (t : Tree) (plans : List ℕ → List Part) (state : State) (inputs : List ℕ) (vals new : Occurrence → ℕ) (stale : List ℕ → ℕ → Bool) (put : Occurrence) → ArePlans t plans
        → ((s : Occurrence) → ¬ (s ≡ put) → new s ≡ vals s)
        → ((j : ℕ) → Has (facts (steps_at (plans put.path) j)) (made put.node) → stale put.path j ≡ true)
        → ((j : ℕ) → Reads (graph_at t put.path) (plans put.path) j put.node → stale put.path j ≡ true)
        → ((i j : ℕ) (q : List ℕ) → put.path ≡ i ∷ q → Takes (λ k. graph_at t (k ∷ q)) (plans q) j i put.node → stale q j ≡ true)
        → ((i j m port : ℕ) (q : List ℕ) → put.path ≡ i ∷ q → NodeIs t put.path put.node (Input port) → IsReachedOccurrence t put → Has (steps_at (plans q) j) (pass m i port) → stale q j ≡ true)
        → AreMarked t plans state inputs vals stale → AreMarked t plans state inputs new stale }
    ensures passers { (t : Tree) (plans : List ℕ → List Part) (state : State) (inputs : List ℕ) (vals : Occurrence → ℕ) (stale : List ℕ → ℕ → Bool) → ArePlans t plans → AreMarked t plans state inputs vals stale
        → (q : List ℕ) (i port n : ℕ) (c : NodeId) → IsReachedPath t q → NodeIs t (i ∷ q) n (Input port) → IsReachedOccurrence t (at_path (i ∷ q) n) → connection (graph_at t q) i port ≡ Some c
        → ¬ (vals (at_path (i ∷ q) n) ≡ vals (at_path q c.0)) → (j m : ℕ) → Has (steps_at (plans q) j) (pass m i port) → stale q j ≡ true }
    ensures more { (t : Tree) (plans : List ℕ → List Part) (state : State) (inputs : List ℕ) (vals : Occurrence → ℕ) (stale more : List ℕ → ℕ → Bool) → ((p : List ℕ) (part : ℕ) → more p part ≡ false → stale p part ≡ false)
        → ((p : List ℕ) (part i b : ℕ) → IsReachedPath t p → more p part ≡ false → Has (steps_at (plans p) part) (run i b) → more (i ∷ p) b ≡ false)
        → AreMarked t plans state inputs vals stale → AreMarked t plans state inputs vals more }
{}

/// The marks stay right where the state and the inputs change, if the parts that read what changed of the state are stale.
pub fn changes_keep_marks()
    ensures { (t : Tree) (plans : List ℕ → List Part) (old new : State) (inputs others : List ℕ) (vals : Occurrence → ℕ) (stale : List ℕ → ℕ → Bool) → ArePlans t plans
        → ((q : List ℕ) (j m : ℕ) (x : Node) → IsReachedPath t q → stale q j ≡ false → Has (steps_at (plans q) j) (make m) → NodeIs t q m x → IsSameState old new q m x)
        → AreMarked t plans old inputs vals stale → AreMarked t plans new others vals stale }
{}

/// Where the part that puts a number is stale, with its readers, the part of the parent that runs it, and those that take from
/// that, all parts are stale that are to be for the marks to stay right. The same for an input with its readers.
pub fn tables_name_all_readers()
    ensures puts { (t : Tree) (plans : List ℕ → List Part) (state : State) (inputs : List ℕ) (vals new : Occurrence → ℕ) (stale : List ℕ → ℕ → Bool) (tables : List ℕ → Tables) → IsWhole t → ArePlans t plans → AreTablesOf t plans tables
        → (p : List ℕ) (part n : ℕ) → IsReachedPath t p → Has (facts (steps_at (plans p) part)) (made n) → ((s : Occurrence) → ¬ (s ≡ at_path p n) → new s ≡ vals s)
        → stale p part ≡ true → ((k : ℕ) → Has (row (tables p).readers part) k → stale p k ≡ true)
        → ((i : ℕ) (q : List ℕ) → p ≡ i ∷ q → (a : ℕ) × Has (steps_at (plans q) a) (run i part) × (stale q a ≡ true) × ((k : ℕ) → Has (row (tables q).takers a) k → stale q k ≡ true))
        → AreMarked t plans state inputs vals stale → AreMarked t plans state inputs new stale }
    ensures gives { (t : Tree) (plans : List ℕ → List Part) (state : State) (inputs : List ℕ) (vals new : Occurrence → ℕ) (stale : List ℕ → ℕ → Bool) (tables : List ℕ → Tables) → IsWhole t → ArePlans t plans → AreTablesOf t plans tables
        → (q : List ℕ) (i port n : ℕ) (c : NodeId) → IsReachedPath t (i ∷ q) → NodeIs t (i ∷ q) n (Input port) → connection (graph_at t q) i port ≡ Some c → ¬ (vals (at_path (i ∷ q) n) ≡ vals (at_path q c.0))
        → ((s : Occurrence) → ¬ (s ≡ at_path (i ∷ q) n) → new s ≡ vals s) → ((k : ℕ) → Has (row (tables (i ∷ q)).input_readers port) k → stale (i ∷ q) k ≡ true)
        → AreMarked t plans state inputs vals stale → AreMarked t plans state inputs new stale }
{}
