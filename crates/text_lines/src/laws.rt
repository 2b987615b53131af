//! A law of lines. The function does nothing when it runs: its contract is the law.

ghost use Rattle.std.specs.Prelude.{◌≡◌, ◌≢◌, [], ◌∷◌, ◌++◌, List, ℕ};
ghost use Rattle.std.specs.List.{All};
ghost use Rattle.std.specs.Str.Lines.{strip_carriage_return};
ghost use Rattle.text_lines.specs.Lines.{Ended, Open, lines_of, line_texts};

/// A text is cut at its newlines: a line is what precedes one, without a carriage return directly
/// before it; and what follows the last one, unless that is nothing.
#[tactic(auto, using(crate::proofs::Cutting::cut_line, crate::proofs::Cutting::last_line, crate::proofs::Cutting::cut_piece, crate::proofs::Cutting::last_piece))]
pub fn texts_are_cut_at_newlines()
    ensures nothing { line_texts [] ≡ [] }
    ensures ended { (line rest : List ℕ) → All (λ octet. octet ≢ 10) line →
        line_texts (line ++ 10 ∷ rest) ≡ strip_carriage_return line ∷ line_texts rest }
    ensures open { (line : List ℕ) → All (λ octet. octet ≢ 10) line → line ≢ [] →
        line_texts line ≡ line ∷ [] }
    ensures ended_line { (line rest : List ℕ) → All (λ octet. octet ≢ 10) line →
        lines_of (line ++ 10 ∷ rest) ≡ Ended line ∷ lines_of rest }
    ensures open_line { (line : List ℕ) → All (λ octet. octet ≢ 10) line → line ≢ [] →
        lines_of line ≡ Open line ∷ [] }
{}
