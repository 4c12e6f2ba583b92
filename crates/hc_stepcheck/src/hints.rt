//! Where passes and runs stand: hints, which are looked at and not believed.
use hc_fault::NoMemory;
use hc_signal::{Circuit, InstId};
use hc_steps::{NOWHERE, Plan, Spot, Step, starts_of_inputs};
use std::alloc::Global;

/// Of each input and each part of each instance, the last step so far. The rows of an instance begin at its own starts.
#[derive(Drop)]
pub(crate) struct Hints {
    first_input: Vec<u32>,
    passed: Vec<Spot>,
    first_part: Vec<u32>,
    ran: Vec<Spot>,
}

/// The spot at a place of a row.
fn spot_in(starts: &[u32], spots: &[Spot], inst: InstId, at: u32) -> Spot {
    match starts.get(inst.0 as usize) {
        None => NOWHERE,
        Some(start) => match spots.get(*start as usize + at as usize) {
            None => NOWHERE,
            Some(spot) => *spot,
        },
    }
}

/// Sets the spot at a place of a row.
fn put_spot(starts: &[u32], spots: &mut Vec<Spot>, inst: InstId, at: u32, to: Spot) {
    if let Some(start) = starts.get(inst.0 as usize) {
        if let Some(spot) = spots.get_mut(*start as usize + at as usize) {
            *spot = to;
        }
    }
}

impl Hints {
    /// The spot of the last pass to an input of an instance.
    pub(crate) fn passed(&self, inst: InstId, port: u32) -> Spot {
        spot_in(
            self.first_input.as_slice(),
            self.passed.as_slice(),
            inst,
            port,
        )
    }

    /// The spot of the last run of a part of an instance.
    pub(crate) fn ran(&self, inst: InstId, part: u32) -> Spot {
        spot_in(self.first_part.as_slice(), self.ran.as_slice(), inst, part)
    }

    /// Notes a step.
    pub(crate) fn note(&mut self, step: Step, spot: Spot) {
        match step {
            Step::Pass {
                node: _,
                inst,
                port,
            } => put_spot(
                self.first_input.as_slice(),
                &mut self.passed,
                inst,
                port,
                spot,
            ),
            Step::Run { inst, part } => {
                put_spot(self.first_part.as_slice(), &mut self.ran, inst, part, spot)
            }
            Step::Make { .. } | Step::Take { .. } => {}
        }
    }
}

/// No hints for a form.
pub(crate) fn no_hints(alloc: Global, circuit: &Circuit, plan: &Plan) -> Result<Hints, NoMemory> {
    let (first_input, inputs) = starts_of_inputs(alloc, circuit)?;
    let mut first_part = Vec::new(alloc);
    first_part.extend_from_slice(plan.first_part.as_slice())?;
    Ok(Hints {
        first_input,
        passed: vec![in alloc; NOWHERE; inputs as usize]?,
        first_part,
        ran: vec![in alloc; NOWHERE; plan.ran.len()]?,
    })
}
