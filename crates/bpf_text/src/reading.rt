//! A line by itself.
ghost use Rattle.std.specs.Prelude.{◌≡◌, ◌≢◌, ◌∷◌, List, ℕ, IfSome, IfNone, codes};
ghost use Rattle.bpf_text.specs.Judged.{texts, JudgesBody, JudgesTokens, JudgesLine};

use crate::fields::is_name;
use crate::line::{LineFault, Statement, TextLine};
use crate::statements::statement;
use crate::tokens::tokens;

/// The instruction of these tokens, if there are any.
fn body_of<'a>(tokens: &[&'a [u8]]) -> Result<Option<Statement<'a>>, LineFault>
    ensures { JudgesBody (texts tokens.now) result }
{
    if tokens.is_empty() {
        return Ok(None);
    }
    match statement(tokens) {
        Ok(statement) => Ok(Some(statement)),
        Err(fault) => Err(fault),
    }
}

/// The octets before a colon, and the tokens after it.
fn label_of<'b, 'a>(tokens: &'b [&'a [u8]]) -> Option<(&'a [u8], &'b [&'a [u8]])>
    ensures some { IfSome result (λ p. texts tokens.now ≡ p.0.now ∷ codes ":" ∷ texts p.1.now) }
    ensures none { IfNone result ((name : List ℕ) (others : List (List ℕ)) →
        texts tokens.now ≢ name ∷ codes ":" ∷ others) }
{
    match tokens {
        [name, b":", rest @ ..] => Some((*name, rest)),
        _ => None,
    }
}

/// The label and the instruction of these tokens.
fn parts_of<'a>(tokens: &[&'a [u8]]) -> Result<TextLine<'a>, LineFault>
    ensures { JudgesTokens (texts tokens.now) result }
{
    let (label, rest) = match label_of(tokens) {
        Some((name, rest)) if is_name(name) => (Some(name), rest),
        Some(_) => return Err(LineFault::Syntax),
        None => (None, tokens),
    };
    match body_of(rest) {
        Ok(body) => Ok(TextLine { label, body }),
        Err(fault) => Err(fault),
    }
}

/// The label and the instruction of a line, which has no newline: tokens with spaces and tabs
/// between them, and a comment from `;` on. An immediate above 2^31 - 1 means itself minus 2^32. If
/// a label's name is in place of a distance, the instruction has distance 0 and the name is
/// returned with it.
///
/// Refused with Syntax if the line does not have the form of one, and then with Range if a number,
/// or the number of a width, is out of its range. The time is linear in the line.
pub fn read_line<'a>(text: &'a [u8]) -> Result<TextLine<'a>, LineFault>
    ensures { JudgesLine text.now result }
{
    let found = tokens(text).ok_or(LineFault::Syntax)?;
    parts_of(found.as_slice())
}
