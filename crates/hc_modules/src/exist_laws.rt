ghost use Rattle.std.specs.Prelude.{◌+◌, ◌<◌, ◌^◌, ℕ, List, length};
ghost use Rattle.hc_modules.specs.VerilogText.{IsVerilog};
ghost use Rattle.hc_modules.specs.Writable.{IsWritable};
ghost use Rattle.hc_names.specs.Naming.{NamedTree};
ghost use Rattle.hc_signal.specs.Member.{Has};
ghost use Rattle.hc_signal.specs.Tree.{Tree};

use hc_canon::same_is_an_equivalence;
use hc_names::calls_can_be_named;
use hc_verilog::modules_have_texts;

/// No calls that can be written are without a text, below any top.
pub fn hierarchies_have_texts()
    ensures { (top : Tree) (calls : List NamedTree) → length calls < 2 ^ 64 → ((call : NamedTree) → Has calls call → IsWritable calls call) → (((text : List ℕ) × IsVerilog top calls text) → ⊥) → ⊥ }
{
    same_is_an_equivalence();
    calls_can_be_named();
    modules_have_texts();
}
