ghost use Rattle.std.specs.Prelude.{◌≡◌, ℕ, List, Option};
ghost use Rattle.std.specs.Io.KnownBytes.{Appends};
ghost use Rattle.hc_bench.specs.Listing.{CycleRow, listing};
ghost use Rattle.hc_bench.specs.Playing.{IsListed, IsPartListed};
ghost use Rattle.hc_bench.specs.Simulation.{State, IsInitialState, IsSettled, IsStateOf};
ghost use Rattle.hc_canon.specs.Same.{Same};
ghost use Rattle.hc_bench.specs.Steps.{AreStepsFor};
ghost use Rattle.hc_bench.specs.Trace.{IsAtStart, IsRun, IsSimulation, Simulation, Trace};
ghost use Rattle.hc_bench.specs.declared.kinds.Step.{Step};
ghost use Rattle.hc_signal.specs.FlatGraph.{IsFlat};
ghost use Rattle.hc_signal.specs.Graph.{Graph};
ghost use Rattle.hc_signal.specs.Occurrences.{Occurrence, HasCombLoop, IsReachedOccurrence};
ghost use Rattle.hc_signal.specs.declared.signal.Port.{Port};
ghost use Rattle.hc_outside.specs.Moves.{AppendsFront};
ghost use Rattle.hc_signal.specs.Tree.{IsWhole, Tree, graph, leaf};

use hc_trees::{same_trees_are_alike, same_trees_have_partners};

/// A tree without a combinational loop settles, and in one way.
pub fn loop_free_trees_settle_once()
    ensures some { (t : Tree) → IsWhole t → ¬ HasCombLoop t → (state : State) (inputs : List ℕ) → (v : Occurrence → ℕ) × IsSettled t state inputs v }
    ensures once { (t : Tree) → IsWhole t → ¬ HasCombLoop t → (state : State) (inputs : List ℕ) (v w : Occurrence → ℕ) → IsSettled t state inputs v → IsSettled t state inputs w → (s : Occurrence) → IsReachedOccurrence t s → v s ≡ w s }
{}

/// A tree without a combinational loop gives steps one list of rows.
pub fn traces_are_single()
    ensures { (t : Tree) → IsWhole t → ¬ HasCombLoop t → (state : State) (inputs : List ℕ) (count : ℕ) (steps : List Step) (rows others : List CycleRow) → IsStateOf t state → Trace t state inputs count steps rows → Trace t state inputs count steps others → rows ≡ others }
{}

/// From each state of a simulator the steps of a bench for its inputs give some rows.
pub fn benches_run()
    ensures { (sim : Simulation) → IsSimulation sim → (count : ℕ) (steps : List Step) → AreStepsFor (graph sim.tree).ports.inputs steps → (rows : List CycleRow) × Trace sim.tree sim.state sim.inputs count steps rows }
{}

/// What a sink took where playing a bench failed is a front of the listing of the whole bench.
pub fn parts_of_listings_are_fronts()
    ensures { (outputs : List Port) (sim : Simulation) (steps : List Step) (rows : List CycleRow) (old new : Option (List ℕ)) → IsSimulation sim → Trace sim.tree sim.state sim.inputs 0 steps rows → IsPartListed outputs sim 0 steps old new → AppendsFront old new (listing outputs rows) }
{}

/// Trees that are the same give the steps of a bench the same rows.
pub fn same_trees_run_alike()
    ensures { (s t : Tree) → Same s t → IsWhole s → IsWhole t → ¬ HasCombLoop s → (state other : State) → IsInitialState s state → IsInitialState t other → (inputs : List ℕ) (count : ℕ) (steps : List Step) (rows : List CycleRow) → Trace s state inputs count steps rows → Trace t other inputs count steps rows }
{
    same_trees_have_partners();
    same_trees_are_alike();
}

/// A tree has the rows of its flat graph: both give them from their initial states, for the steps of any bench.
pub fn flat_graphs_run_alike()
    ensures { (t : Tree) (g : Graph) → IsFlat t g → IsWhole t → ¬ HasCombLoop t → (state other : State) → IsInitialState t state → IsInitialState (leaf g) other → (inputs : List ℕ) (count : ℕ) (steps : List Step) (rows : List CycleRow) → Trace (leaf g) other inputs count steps rows → Trace t state inputs count steps rows }
{}

/// The initial states of a tree without a combinational loop give the steps of a bench one list of rows.
pub fn runs_are_single()
    ensures { (t : Tree) → IsWhole t → ¬ HasCombLoop t → (steps : List Step) (rows others : List CycleRow) → IsRun t steps rows → IsRun t steps others → rows ≡ others }
{
    same_trees_have_partners();
}

/// What a sink took of a bench that was played from the start is the listing of its run.
pub fn listings_are_of_runs()
    ensures { (outputs : List Port) (sim : Simulation) (steps : List Step) (rows : List CycleRow) (old new : Option (List ℕ)) → IsSimulation sim → IsAtStart sim → IsRun sim.tree steps rows → IsListed outputs sim steps old new → Appends old new (listing outputs rows) }
{
    same_trees_have_partners();
}

/// A tree without a combinational loop gives the steps of a bench some run: it has initial states, and these give rows.
pub fn benches_have_runs()
    ensures starts { (t : Tree) → IsWhole t → (state : State) × IsInitialState t state }
    ensures runs { (t : Tree) → IsWhole t → ¬ HasCombLoop t → (steps : List Step) → AreStepsFor (graph t).ports.inputs steps → (rows : List CycleRow) × IsRun t steps rows }
{}
