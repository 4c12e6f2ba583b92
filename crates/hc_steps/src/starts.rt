//! Where the rows of each instance begin in one list of all.
ghost use Rattle.std.specs.Prelude.{◌≡◌, IfOk};
ghost use Rattle.hc_steps.specs.Views.{conns_end, conns_start};

use hc_fault::NoMemory;
use hc_signal::Circuit;
use std::alloc::Global;

/// A number of 32 bits.
pub fn narrow(n: usize) -> Result<u32, NoMemory>
    ensures { IfOk result (λ m. m ≡ n) }
{
    if n < u32::MAX as usize {
        Ok(n as u32)
    } else {
        Err(NoMemory)
    }
}

/// Where the inputs of each instance begin, and where they end.
pub fn starts_of_inputs(alloc: Global, circuit: &Circuit) -> Result<(Vec<u32>, u32), NoMemory>
    ensures { IfOk result (λ r. (r.0.items ≡ conns_start 0 circuit.now.instances) × (r.1 ≡ conns_end 0 circuit.now.instances)) }
{
    let mut starts = Vec::new(alloc);
    let mut at: u32 = 0;
    'each: for it in circuit.instances() {
        starts.push(at)?;
        let count = narrow(it.conns.as_slice().len())?;
        at = match at.checked_add(count) {
            None => return Err(NoMemory),
            Some(next) => next,
        };
    }
    Ok((starts, at))
}
