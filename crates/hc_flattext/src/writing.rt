ghost use Rattle.std.specs.Prelude.{◌≡◌, [], IfOk};
ghost use Rattle.hc_signal.specs.Checked.{IsChecked};
ghost use Rattle.hc_signal.specs.Tree.{leaf};
ghost use Rattle.hc_verilog.specs.ModuleText.{IsTreeText};

use hc_canon::canon;
use hc_fault::{Name, NoMemory};
use hc_names::Names;
use hc_signal::Circuit;
use hc_verilog::module_text;
use std::alloc::Global;

/// The module of a circuit without instances, under a name.
pub fn flat_text(alloc: Global, circuit: &Circuit, name: &Name) -> Result<Vec<u8>, NoMemory>
    requires checked { IsChecked circuit.now }
    requires instances { circuit.now.instances ≡ [] }
    ensures { IfOk result (λ text. IsTreeText (leaf circuit.now) (λ i. []) name.now text.items) }
{
    let form = canon(alloc, circuit, &[])?;
    let names = Names::new(alloc);
    let text = module_text(alloc, &form, name, &names)?;
    Ok(text)
}
