//! Laws of the circuits of all instances, each with its rows.
ghost use Rattle.std.specs.Prelude.{◌≡◌, ℕ, List};
ghost use Rattle.hc_bench.specs.Simulation.{clock_edge, reset};
ghost use Rattle.hc_bits.specs.BitVector.{BitVector};
ghost use Rattle.hc_canon.specs.declared.form.EntryId.{EntryId};
ghost use Rattle.hc_canon.specs.FormView.{FormView};
ghost use Rattle.hc_dbstate.specs.History.{History, IsLegal};
ghost use Rattle.hc_dbstate.specs.Unfolding.{unfolding_of};
ghost use Rattle.hc_hierstate.specs.Circuits.{HaveCircuits, MemoriesStep, RegistersReset, RegistersStep, StandInRows};
ghost use Rattle.hc_hierstate.specs.States.{state_of};
ghost use Rattle.hc_layout.specs.Layout.{IsLayout, Layout};
ghost use Rattle.hc_signal.specs.Occurrences.{Occurrence};
ghost use Rattle.hc_signal.specs.Tree.{Tree};

use hc_layout::instances_have_places;

/// In an unfolding the circuit of each instance is that of its entry.
pub fn unfoldings_have_circuits()
    ensures { (h : History) (top : EntryId) (l : Layout) → IsLegal h → IsLayout h.entries top l → HaveCircuits h.entries l (unfolding_of h.entries top) }
{
    instances_have_places();
}

/// Where the registers and memories of each instance are stepped by its own circuit and values, the new rows stand for the
/// state after the clock edge.
pub fn edges_of_circuits()
    ensures { (forms : List FormView) (top : EntryId) (l : Layout) (t : Tree) (v : Occurrence → ℕ) (values old new : List (List BitVector))
        (words after : List (List (List BitVector))) → IsLayout forms top l → StandInRows forms l t v values → RegistersStep forms l values old new
        → MemoriesStep forms l values words after → state_of forms l new after ≡ clock_edge t v (state_of forms l old words) }
{}

/// Where the registers of each instance are reset by its own circuit, the new rows stand for the state after the reset.
pub fn resets_of_circuits()
    ensures { (forms : List FormView) (top : EntryId) (l : Layout) (t : Tree) (old new : List (List BitVector)) (words : List (List (List BitVector)))
        → IsLayout forms top l → HaveCircuits forms l t → RegistersReset forms l old new → state_of forms l new words ≡ reset t (state_of forms l old words) }
{}
