//! Laws of the registers of a circuit, and of the rows at the start.
ghost use Rattle.std.specs.Prelude.{◌≡◌, ◌↔◌, ◌<◌, length, slice_get, true};
ghost use Rattle.hc_bench.specs.Simulation.{IsInitialState};
ghost use Rattle.hc_canon.specs.declared.form.EntryId.{EntryId};
ghost use Rattle.hc_dbstate.specs.History.{History, IsLegal};
ghost use Rattle.hc_dbstate.specs.Unfolding.{unfolding_of};
ghost use Rattle.hc_hierstate.specs.Changes.{initial_rows, zero_rows};
ghost use Rattle.hc_hierstate.specs.States.{AreStateRows, memories_in, registers_in, state_of};
ghost use Rattle.hc_layout.specs.Layout.{IsLayout, Layout};
ghost use Rattle.hc_signal.specs.Graph.{Graph};
ghost use Rattle.hc_signal.specs.Member.{Has};
ghost use Rattle.hc_signal.specs.declared.signal.MemId.{MemId};
ghost use Rattle.hc_signal.specs.declared.signal.NodeId.{NodeId};
ghost use Rattle.hc_values.specs.Edges.{is_register_row};

use crate::laws::rows_are_states;
use hc_layout::instances_have_places;

/// The registers of a circuit are its nodes that are registers, and its memories are all of them.
pub fn registers_are_listed()
    ensures registers { (g : Graph) (id : NodeId) → Has (registers_in g) id ↔ (is_register_row (slice_get g.nodes id.0) ≡ true) }
    ensures memories { (g : Graph) (id : MemId) → Has (memories_in g) id ↔ (id.0 < length g.memories) }
{}

/// The rows at the start have the right widths, and stand for the initial state.
pub fn initial_rows_are_initial()
    ensures rows { (h : History) (top : EntryId) (l : Layout) → IsLegal h → IsLayout h.entries top l → AreStateRows h.entries l (initial_rows h.entries l) (zero_rows h.entries l) }
    ensures state { (h : History) (top : EntryId) (l : Layout) → IsLegal h → IsLayout h.entries top l
        → IsInitialState (unfolding_of h.entries top) (state_of h.entries l (initial_rows h.entries l) (zero_rows h.entries l)) }
{
    rows_are_states();
    instances_have_places();
}
