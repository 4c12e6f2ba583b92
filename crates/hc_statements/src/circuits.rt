//! Circuits of a design by name, and arguments of calls.
ghost use Rattle.std.specs.Prelude.{◌≡◌, ◌<◌, length, IfSome};
ghost use Rattle.hc_statements.specs.Instances.{circuit_place};

use hc_fault::Name;
use hc_lang::CircuitText;

/// The place of the circuit of this name.
pub fn circuit_place(circuits: &[CircuitText], name: &Name) -> Option<usize>
    ensures place { result ≡ circuit_place circuits.now name.now }
    ensures within { IfSome result (λ k. k < length circuits.now) }
{
    circuits.iter().position(|circuit| circuit.name == *name)
}
