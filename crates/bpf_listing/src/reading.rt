//! An instruction from its canonical text.
ghost use Rattle.std.specs.Prelude.{◌≡◌, IfSome, Some};
ghost use Rattle.bpf_types.specs.declared.line.Line.{Line};
ghost use Rattle.bpf_types.specs.Line.{IsLine};
ghost use Rattle.bpf_canonical.specs.Canonical.{canonical};

use bpf_canonical::text_of;
use bpf_text::laws::canonical_texts_are_read_back;
use bpf_text::{Statement, TextLine};
use bpf_types::Line;

/// The instruction whose canonical text this is, without a newline, or `None` if the text is not
/// the canonical one of an instruction.
pub fn read_line(text: &[u8]) -> Option<Line>
    ensures some { IfSome result (λ line. IsLine line × (text.now ≡ canonical line)) }
    ensures only { (line : Line) → IsLine line → text.now ≡ canonical line → result ≡ Some line }
{
    canonical_texts_are_read_back();
    match bpf_text::read_line(text) {
        Ok(
            TextLine {
                body: Some(Statement { line, .. }),
                ..
            },
        ) if text_of(&line).as_slice() == text => Some(line),
        _ => None,
    }
}
