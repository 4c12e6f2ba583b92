ghost use Rattle.std.specs.Prelude.{◌≤◌, ◌≡◌, [], ℕ, Some};
ghost use Rattle.hc_sigtext.specs.Grammar.{IsSig, Tokens, most_open};
ghost use Rattle.hc_sigtext.specs.SigReading.{signal_at};
ghost use Rattle.hc_sigtext.specs.declared.tree.Sig.{Sig};

/// What spells a signal is read as that signal, and the other way round. No tokens spell two signals.
pub fn signals_are_read()
    ensures read { (ts : Tokens) (s : Sig) (d : ℕ) → IsSig ts s → most_open 0 ts ≤ d → signal_at d ts ≡ Some (s, []) }
    ensures spelled { (ts : Tokens) (s : Sig) (d : ℕ) → signal_at d ts ≡ Some (s, []) → IsSig ts s × (most_open 0 ts ≤ d) }
    ensures one { (ts : Tokens) (s t : Sig) → IsSig ts s → IsSig ts t → s ≡ t }
{}
