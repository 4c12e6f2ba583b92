ghost use Rattle.std.specs.Prelude.{◌≡◌, ℕ, Ok, Some, ℤ};
ghost use Rattle.hc_bits.specs.BitVector.{BitVector, IsVector, IsWidth, from_i64};
ghost use Rattle.hc_signal.specs.declared.signal.NodeId.{NodeId};
ghost use Rattle.hc_signal.specs.Builds.{IsNode};
ghost use Rattle.hc_signal.specs.Graph.{Graph};
ghost use Rattle.hc_signal.specs.Lawful.{IsLawful};
ghost use Rattle.hc_unfold.specs.Formed.{AreFew, ChangesKeepForm, IsFormed};
ghost use Rattle.hc_unfold.specs.Drawing.{as_width};
ghost use Rattle.hc_unfold.specs.Gives.{Grows};
ghost use Rattle.hc_unfold.specs.Names.{AreKnown, Names};
ghost use Rattle.hc_unfold.specs.Nodes.{node_of};
ghost use Rattle.hc_unfold.specs.Signals.{Signal};

/// Each change that a line makes keeps a graph under way formed.
pub fn changes_keep_form()
    ensures { ChangesKeepForm }
{}

/// A signal that is drawn keeps a graph formed. It adds nodes alone, and its node is there.
pub fn drawn_signals_keep_form()
    ensures { (names : Names) (s : Signal) (g h : Graph) (id : NodeId) → IsFormed g → AreKnown g names → node_of names s g ≡ Ok (h, id) → IsFormed h × Grows g h × IsNode h id }
{}

/// A formed graph whose rows have numbers of 32 bits is lawful.
pub fn formed_graphs_are_lawful()
    ensures { (g : Graph) → IsFormed g → AreFew g → IsLawful g }
{}

/// A number that is read as a width is one, and a number in a width, or 0, is a vector of it.
pub fn numbers_are_vectors()
    ensures width { (z : ℤ) (w : ℕ) → as_width z ≡ Ok w → IsWidth w }
    ensures value { (w : ℕ) (z : ℤ) (v : BitVector) → IsWidth w → from_i64 w z ≡ Some v → IsVector v w }
    ensures zero { (w : ℕ) → IsWidth w → IsVector (record { width = w; value = 0 }) w }
{}
