//! The values of inputs, and which ports there are.
ghost use Rattle.std.specs.Prelude.{◌≡◌, ◌<◌, true, false, length, slice_get, slice_set, None};
ghost use Rattle.hc_bench.specs.Steps.{IsPortValue};
ghost use Rattle.hc_flatsim.specs.Machine.{port_widths, widths};

use hc_bits::Bits;
use hc_signal::Circuit;

/// Whether an input has this value.
pub fn is_input(circuit: &Circuit, inputs: &[Bits], port: u32, value: Bits) -> bool
    requires widths { widths inputs.now ≡ port_widths circuit.now.ports.inputs }
    requires value { IsPortValue circuit.now.ports.inputs port value }
    ensures { result ≡ true → slice_set inputs.now port value ≡ inputs.now }
{
    let _ = circuit;
    inputs[port as usize] == value
}

/// Sets an input.
pub fn set_input(circuit: &Circuit, inputs: &mut [Bits], port: u32, value: Bits)
    requires widths { widths inputs.old ≡ port_widths circuit.now.ports.inputs }
    requires value { IsPortValue circuit.now.ports.inputs port value }
    ensures value { inputs.new ≡ slice_set inputs.old port value }
    ensures widths { widths inputs.new ≡ port_widths circuit.now.ports.inputs }
{
    let _ = circuit;
    inputs[port as usize] = value;
}

/// Whether there is such an input, and the value has its width.
pub fn may_be_set(circuit: &Circuit, port: u32, value: Bits) -> bool
    ensures taken { result ≡ true → IsPortValue circuit.now.ports.inputs port value }
    ensures refused { result ≡ false → ¬ IsPortValue circuit.now.ports.inputs port value }
{
    let inputs = circuit.ports().inputs.as_slice();
    match inputs.get(port as usize) {
        Some(input) => input.width == value.width(),
        None => false,
    }
}

/// Whether there is such an output.
pub fn is_output(circuit: &Circuit, port: u32) -> bool
    ensures within { result ≡ true → port < length circuit.now.ports.outputs }
    ensures past { result ≡ false → slice_get circuit.now.ports.outputs port ≡ None }
{
    let outputs = circuit.ports().outputs.as_slice();
    outputs.get(port as usize).is_some()
}
