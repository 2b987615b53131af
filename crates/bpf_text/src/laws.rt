//! Laws of the lines of assembly text. The functions do nothing when they run: their contracts are
//! the laws.
ghost use Rattle.std.specs.Prelude.{◌≡◌, ℕ, List, Result, MatchResult};
ghost use Rattle.bpf_types.specs.declared.line.Line.{Line};
ghost use Rattle.bpf_types.specs.Line.{IsLine};
ghost use Rattle.bpf_canonical.specs.Canonical.{canonical};
ghost use Rattle.bpf_text.specs.Lines.{TextLine, Writes, InRange};
ghost use Rattle.bpf_text.specs.Listings.{alone};
ghost use Rattle.bpf_text.specs.Judged.{JudgesLine, written_line};
ghost use Rattle.bpf_text.specs.declared.line.TextLine as lent;
ghost use Rattle.bpf_text.specs.declared.line.LineFault.{LineFault};

use bpf_canonical::laws::mnemonics_are_unique;

/// A line of text whose numbers are in their ranges is read in one way: it has one label at most
/// and one instruction at most.
pub fn readings_are_unique()
    ensures { (text : List ℕ) (w v : TextLine) → Writes text w → InRange w.body → Writes text v →
        w ≡ v }
{
    mnemonics_are_unique();
}

/// The canonical text of an instruction is a line of assembly text with that instruction, and with
/// no label; `read_line` answers that instruction.
pub fn canonical_texts_are_read_back()
    ensures writes { (line : Line) → IsLine line → Writes (canonical line) (alone line) }
    ensures reads { (line : Line) (result : Result lent.TextLine LineFault) → IsLine line →
        JudgesLine (canonical line) result →
        MatchResult result (λ p. written_line p ≡ alone line) (λ fault. ⊥) }
{
    readings_are_unique();
}
