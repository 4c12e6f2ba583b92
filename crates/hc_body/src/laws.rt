ghost use Rattle.std.specs.Prelude.{◌≡◌, ℕ, List, Result, Ok, ℤ};
ghost use Rattle.hc_fault.specs.declared.fault.Fault.{Fault};
ghost use Rattle.hc_fault.specs.declared.fault.Path.{Path};
ghost use Rattle.hc_lang.specs.declared.tree.CircuitText.{CircuitText};
ghost use Rattle.hc_lang.specs.declared.tree.Design.{Design};
ghost use Rattle.hc_body.specs.declared.kinds.Body.{Body};
ghost use Rattle.hc_statements.specs.declared.kinds.Call.{Call};
ghost use Rattle.hc_body.specs.BodyOf.{BodyOf, IsCall};
ghost use Rattle.hc_body.specs.Children.{AreChildrenOf};
ghost use Rattle.hc_body.specs.Moved.{AreMoved};
ghost use Rattle.hc_statements.specs.PortWidths.{port_widths, ports_of};
ghost use Rattle.hc_body.specs.TopCall.{top_call};

/// A call of a circuit has one answer: one body, or one fault.
pub fn bodies_are_single()
    ensures { (d : Design) (c : CircuitText) (args : List ℤ) (path : Path) (r s : Result Body Fault) → BodyOf d c args path r → BodyOf d c args path s → r ≡ s }
{}

/// The call of the `top` line is a call of a circuit of the design, with an argument for each parameter.
pub fn calls_of_the_top()
    ensures { (d : Design) (call : Call) → top_call d ≡ Ok call → IsCall d call }
{}

/// The circuit of a body has the ports that the heads of its call have.
pub fn bodies_have_their_ports()
    ensures { (d : Design) (c : CircuitText) (args : List ℤ) (path : Path) (b : Body) → BodyOf d c args path (Ok b) → (widths : List ℕ) × (port_widths c args ≡ Ok widths) × (b.circuit.ports ≡ ports_of c.heads widths) }
{}

/// A body has a child for each of its instances. Each child is a call of a circuit of the design, and its instance has
/// the ports of that call.
pub fn bodies_have_their_children()
    ensures { (d : Design) (c : CircuitText) (args : List ℤ) (path : Path) (b : Body) → BodyOf d c args path (Ok b) → AreChildrenOf d b }
{}

/// What a call gives does not depend on where it stands: its body is the same at each path, and its fault but for the path.
pub fn bodies_stay()
    ensures body { (d : Design) (c : CircuitText) (args : List ℤ) (p q : Path) (b : Body) → BodyOf d c args p (Ok b) → BodyOf d c args q (Ok b) }
    ensures answer { (d : Design) (c : CircuitText) (args : List ℤ) (p q : Path) (r : Result Body Fault) → BodyOf d c args p r → (s : Result Body Fault) × BodyOf d c args q s × AreMoved p q r s }
{}
