ghost use Rattle.std.specs.Prelude.{◌≤◌, ◌≡◌, ℕ, Some};
ghost use Rattle.hc_lines.specs.Grammar.{IsForm, Line, Tokens, most_open};
ghost use Rattle.hc_lines.specs.LineReading.{line_at};

/// What is spelled as a line is read as that line, and the other way round. No tokens spell two lines.
pub fn lines_have_one_form()
    ensures read { (ts : Tokens) (l : Line) (d : ℕ) → IsForm ts l → most_open 0 ts ≤ d → line_at d ts ≡ Some l }
    ensures spelled { (ts : Tokens) (l : Line) (d : ℕ) → line_at d ts ≡ Some l → IsForm ts l × (most_open 0 ts ≤ d) }
    ensures one { (ts : Tokens) (l m : Line) → IsForm ts l → IsForm ts m → l ≡ m }
{}
