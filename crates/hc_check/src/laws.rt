ghost use Rattle.std.specs.Prelude.{◌≡◌, ◌⊎◌, ℕ};
ghost use Rattle.hc_signal.specs.Graph.{Graph};
ghost use Rattle.hc_signal.specs.Lawful.{IsLawful};
ghost use Rattle.hc_signal.specs.Checked.{Breaks, IsChecked, Rule};

/// Each circuit meets the rules, or breaks one of them at one place.
pub fn one_verdict()
    ensures some { (g : Graph) → IsLawful g → IsChecked g ⊎ ((rule : Rule) × (place : ℕ) × Breaks g rule place) }
    ensures one { (g : Graph) (r s : Rule) (j k : ℕ) → Breaks g r j → Breaks g s k → (r ≡ s) × (j ≡ k) }
    ensures not_both { (g : Graph) (rule : Rule) (place : ℕ) → IsChecked g → Breaks g rule place → ⊥ }
{}
