ghost use Rattle.std.specs.Prelude.{◌≤◌, ◌≡◌, ◌∷◌, [], ℕ, IsTrue, not, Some, None, codes, pos};
ghost use Rattle.hc_tokens.specs.Tokens.{tokens, lines};
ghost use Rattle.hc_tokens.specs.Words.{is_name};
ghost use Rattle.hc_tokens.specs.Grammar.{IsNum, Tokens, most_open};
ghost use Rattle.hc_tokens.specs.Reading.{number_at};
ghost use Rattle.hc_tokens.specs.declared.token.Token.TheVariants.{Word, Int, Sized, Operator, Mark};
ghost use Rattle.hc_tokens.specs.declared.token.Mark.TheVariants as mark;
ghost use Rattle.hc_tokens.specs.declared.tree.NumOp.TheVariants as num_op;
ghost use Rattle.hc_tokens.specs.declared.tree.Num.{Num};

/// The tokens of a line.
pub fn tokens_of_a_line()
    ensures words { tokens (codes "let x[3] add(a_1,8'h1Ff) # (") ≡ Some (Word (codes "let") ∷ Word (codes "x") ∷ Mark mark.OpenSquare ∷ Int (pos 3) ∷ Mark mark.CloseSquare ∷ Word (codes "add") ∷ Mark mark.OpenRound ∷ Word (codes "a_1") ∷ Mark mark.Comma ∷ Sized (pos 8) 511 ∷ Mark mark.CloseRound ∷ []) }
    ensures signs { tokens (codes "a<=b== c<d") ≡ Some (Word (codes "a") ∷ Operator num_op.Le ∷ Word (codes "b") ∷ Operator num_op.Eq ∷ Word (codes "c") ∷ Operator num_op.Lt ∷ Word (codes "d") ∷ []) }
    ensures stuck { tokens (codes "12a") ≡ None }
    ensures largest { tokens (codes "9223372036854775807") ≡ Some (Int (pos 9223372036854775807) ∷ []) }
    ensures larger { tokens (codes "9223372036854775808") ≡ None }
    ensures lone { tokens (codes "!") ≡ None }
    ensures lines { lines (97 ∷ 10 ∷ 10 ∷ 98 ∷ []) ≡ (97 ∷ []) ∷ [] ∷ (98 ∷ []) ∷ [] }
    ensures name { IsTrue (is_name (codes "enable")) }
    ensures call { IsTrue (not (is_name (codes "mux2"))) }
{}

/// What spells a number is read as that number, and the other way round.
pub fn numbers_are_read()
    ensures read { (ts : Tokens) (n : Num) (d : ℕ) → IsNum ts n → most_open 0 ts ≤ d → number_at d ts ≡ Some (n, []) }
    ensures spelled { (ts : Tokens) (n : Num) (d : ℕ) → number_at d ts ≡ Some (n, []) → IsNum ts n × (most_open 0 ts ≤ d) }
    ensures one { (ts : Tokens) (m n : Num) → IsNum ts m → IsNum ts n → m ≡ n }
{}
