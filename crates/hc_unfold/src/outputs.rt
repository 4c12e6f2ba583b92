//! The outputs of instances.
ghost use Rattle.std.specs.Prelude.{◌≡◌, IfOk, IfErr, IfSome, Some, ◌<◌, length};
ghost use Rattle.hc_signal.specs.Builds.{HasOutput, IsInstance, IsNode};
ghost use Rattle.hc_signal.specs.declared.stop.BuildStop.TheVariants as stop;
ghost use Rattle.hc_unfold.specs.Gives.{Gives};
ghost use Rattle.hc_unfold.specs.Outputs as spec;

use hc_fault::{FaultKind, Name};
use hc_signal::{BuildStop, Builder, InstId, NodeId, Port};

/// The place of the port of this name.
pub fn port_place(ports: &[Port], name: &Name) -> Option<usize>
    ensures place { result ≡ spec.port_place name.now ports.now }
    ensures within { IfSome result (λ k. k < length ports.now) }
{
    ports.iter().position(|port| port.name == *name)
}

/// The node of the output of this name. F21 where there is none.
pub(crate) fn instance_output(
    builder: &Builder,
    inst: InstId,
    name: &Name,
) -> Result<NodeId, BuildStop>
    requires { IsInstance builder.now inst }
    ensures found { Gives (λ id. id) result (spec.instance_output inst name.now builder.now) }
    ensures node { IfOk result (λ id. IsNode builder.now id) }
{
    let ports = &builder.instance_row(inst).ports;
    let Some(place) = port_place(ports.outputs.as_slice(), name) else {
        return Err(BuildStop::Fault(FaultKind::UnknownPort));
    };
    let Ok(port) = u32::try_from(place) else {
        return Err(BuildStop::NoMemory);
    };
    builder.lawful();
    Ok(builder.out(inst, port))
}
