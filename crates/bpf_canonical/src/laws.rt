//! Laws of mnemonics and of canonical texts. The functions do nothing when they run.
ghost use Rattle.std.specs.Prelude.{◌≡◌, IsTrue, ◌==◌, List, length};
ghost use Rattle.std.specs.List.{All, list_all, count_by};
ghost use Rattle.bpf_types.specs.declared.line.Line.{Line};
ghost use Rattle.bpf_types.specs.Line.{IsLine};
ghost use Rattle.bpf_canonical.specs.declared.mnemonic.Mnemonic.{Mnemonic};
ghost use Rattle.bpf_canonical.specs.Mnemonics.{mnemonic_name};
ghost use Rattle.bpf_canonical.specs.Canonical.{canonical, listing};
ghost use Rattle.bpf_canonical.specs.Octets.{is_text_octet};

/// A word is the name of one mnemonic at most.
pub fn mnemonics_are_unique()
    ensures { (a b : Mnemonic) → mnemonic_name a ≡ mnemonic_name b → a ≡ b }
{}

/// A canonical text consists of digits, lower-case letters, spaces and the signs `+ , - [ ]`. So it
/// has no newline, and a listing has one for each instruction.
pub fn listings_have_a_line_for_each_instruction()
    ensures octets { (line : Line) → IsLine line →
        IsTrue (list_all is_text_octet (canonical line)) }
    ensures newlines { (lines : List Line) → All IsLine lines →
        count_by (λ octet. octet == 10) (listing lines) ≡ length lines }
{}
