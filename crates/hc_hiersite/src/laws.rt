ghost use Rattle.std.specs.Prelude.{◌≡◌, ℕ, false, List, [], Some};
ghost use Rattle.hc_bench.specs.Simulation.{IsSettled, State};
ghost use Rattle.hc_canon.specs.declared.form.EntryId.{EntryId};
ghost use Rattle.hc_dbstate.specs.History.{History};
ghost use Rattle.hc_dbstate.specs.Unfolding.{unfolding_of};
ghost use Rattle.hc_hiersite.specs.Made.{HasState, IsMade, IsConsistent, scene_of};
ghost use Rattle.hc_layout.specs.Layout.{Layout, place};
ghost use Rattle.hc_signal.specs.Occurrences.{HasCombLoop};
ghost use Rattle.hc_store.specs.declared.store.Store.{Store};
ghost use Rattle.hc_store.specs.Given.{Given, IsFit};
ghost use Rattle.hc_store.specs.Scene.{SettlesAll, Shows, board, mark, number};

/// What is made for an entry fits: what a step of a plan names is there, and both ends of a wire have one width.
pub fn made_sites_fit()
    ensures { (h : History) (top : EntryId) (g : Given) (l : Layout) → IsMade h top g l → IsFit g }
{}

/// What is made for an entry stands for the entry's unfolding, each instance at its path, in each state that has its registers
/// and words. The top is number 0.
pub fn made_sites_show()
    ensures shows { (h : History) (top : EntryId) (g : Given) (l : Layout) (state : State) (inputs : List ℕ) → IsMade h top g l → HasState h g l state → Shows (scene_of h top g l state inputs) g }
    ensures top { (h : History) (top : EntryId) (g : Given) (l : Layout) → IsMade h top g l → place h.entries l [] ≡ Some 0 }
{}

/// A settling of what is made for an entry, from right marks, leaves settled numbers, and right marks of which none is set.
pub fn made_sites_settle()
    ensures settled { (h : History) (top : EntryId) (g : Given) (l : Layout) (state : State) (inputs : List ℕ) (old new : Store) → IsMade h top g l → ¬ HasCombLoop (unfolding_of h.entries top)
        → HasState h g l state → IsConsistent (scene_of h top g l state inputs) (board (scene_of h top g l state inputs) old) → SettlesAll g old new
        → IsSettled (unfolding_of h.entries top) state inputs (number (scene_of h top g l state inputs) new.values) }
    ensures kept { (h : History) (top : EntryId) (g : Given) (l : Layout) (state : State) (inputs : List ℕ) (old new : Store) → IsMade h top g l → ¬ HasCombLoop (unfolding_of h.entries top)
        → HasState h g l state → IsConsistent (scene_of h top g l state inputs) (board (scene_of h top g l state inputs) old) → SettlesAll g old new
        → IsConsistent (scene_of h top g l state inputs) (board (scene_of h top g l state inputs) new) }
    ensures quiet { (h : History) (top : EntryId) (g : Given) (l : Layout) (state : State) (inputs : List ℕ) (old new : Store) (path : List ℕ) (part : ℕ) → IsMade h top g l → HasState h g l state
        → SettlesAll g old new → mark (scene_of h top g l state inputs) new.stale path part ≡ false }
{}
