//! Laws of the state that rows stand for.
ghost use Rattle.std.specs.Prelude.{◌≡◌, ℕ, List, Some, slice_get};
ghost use Rattle.hc_bench.specs.Simulation.{IsStateOf, clock_edge, memory_words, register_value, reset};
ghost use Rattle.hc_bits.specs.BitVector.{BitVector};
ghost use Rattle.hc_canon.specs.declared.form.EntryId.{EntryId};
ghost use Rattle.hc_canon.specs.FormView.{FormView};
ghost use Rattle.hc_dbstate.specs.History.{History, IsLegal};
ghost use Rattle.hc_dbstate.specs.Unfolding.{unfolding_of};
ghost use Rattle.hc_hierstate.specs.Changes.{ResetAllRegisters, StepAllMemories, StepAllRegisters};
ghost use Rattle.hc_hierstate.specs.States.{AreStateRows, circuit_of, memories_in, registers_in, state_of};
ghost use Rattle.hc_layout.specs.Layout.{IsLayout, Layout, place};
ghost use Rattle.hc_rows.specs.Rows.{row_at};
ghost use Rattle.hc_signal.specs.Lawful.{NodeAt};
ghost use Rattle.hc_signal.specs.Member.{Has};
ghost use Rattle.hc_signal.specs.Occurrences.{Occurrence};
ghost use Rattle.hc_signal.specs.Tree.{Tree};
ghost use Rattle.hc_signal.specs.declared.signal.MemId.{MemId};
ghost use Rattle.hc_signal.specs.declared.signal.Node.{Node};
ghost use Rattle.hc_signal.specs.declared.signal.NodeId.{NodeId};
ghost use Rattle.hc_steps.specs.Plan.{IsPlain};
ghost use Rattle.hc_values.specs.Rows.{at_path, number_at, numbers, words_at};
ghost use Rattle.hc_values.specs.Values.{HasStateFor};

use hc_layout::instances_have_places;
use hc_trees::canonical_rows_are_reached;

/// Rows of the right widths stand for a state of the unfolding: each register and each memory of each instance stands in it
/// once, with what the row of the instance has for it.
pub fn rows_are_states()
    ensures state { (h : History) (top : EntryId) (l : Layout) (registers : List (List BitVector)) (words : List (List (List BitVector))) → IsLegal h → IsLayout h.entries top l
        → AreStateRows h.entries l registers words → IsStateOf (unfolding_of h.entries top) (state_of h.entries l registers words) }
    ensures registers { (forms : List FormView) (top : EntryId) (l : Layout) (registers : List (List BitVector)) (words : List (List (List BitVector))) (path : List ℕ)
        (p : ℕ) (entry : EntryId) (id : NodeId) → IsLayout forms top l → place forms l path ≡ Some p → slice_get l.entries p ≡ Some entry → Has (registers_in (circuit_of forms entry)) id
        → register_value (state_of forms l registers words) (at_path path id.0) ≡ number_at (row_at registers p) id.0 }
    ensures memories { (forms : List FormView) (top : EntryId) (l : Layout) (registers : List (List BitVector)) (words : List (List (List BitVector))) (path : List ℕ)
        (p : ℕ) (entry : EntryId) (id : MemId) → IsLayout forms top l → place forms l path ≡ Some p → slice_get l.entries p ≡ Some entry → Has (memories_in (circuit_of forms entry)) id
        → memory_words (state_of forms l registers words) (at_path path id.0) ≡ numbers (words_at (row_at words p) id.0) }
    ensures nodes { (h : History) (top : EntryId) (l : Layout) (registers : List (List BitVector)) (words : List (List (List BitVector))) (values : List BitVector)
        (path : List ℕ) (p n : ℕ) (entry : EntryId) (form : FormView) (x : Node) → IsLegal h → IsLayout h.entries top l → place h.entries l path ≡ Some p
        → slice_get l.entries p ≡ Some entry → slice_get h.entries entry.0 ≡ Some form → NodeAt form.circuit n x → IsPlain x
        → HasStateFor (state_of h.entries l registers words) path (record { values = values; registers = row_at registers p; memories = row_at words p }) n x }
{
    instances_have_places();
    canonical_rows_are_reached();
}

/// Where a clock edge makes of each register and each memory of each instance what stands in new rows, the new rows stand
/// for the state after the edge.
pub fn edges_of_rows()
    ensures { (forms : List FormView) (top : EntryId) (l : Layout) (t : Tree) (v : Occurrence → ℕ) (old new : List (List BitVector)) (words after : List (List (List BitVector))) → IsLayout forms top l
        → StepAllRegisters forms l t v old new → StepAllMemories forms l t v words after → state_of forms l new after ≡ clock_edge t v (state_of forms l old words) }
{}

/// Where each register of each instance has its initial value in new rows, they stand for the state after a reset.
pub fn resets_of_rows()
    ensures { (forms : List FormView) (top : EntryId) (l : Layout) (t : Tree) (old new : List (List BitVector)) (words : List (List (List BitVector))) → IsLayout forms top l
        → ResetAllRegisters forms l t old new → state_of forms l new words ≡ reset t (state_of forms l old words) }
{}
