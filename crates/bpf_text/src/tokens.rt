//! All tokens of a line.
ghost use Rattle.std.specs.Prelude.{◌<◌, List, length, map, ℕ, IfSome, IfNone};
ghost use Rattle.bpf_text.specs.Tokens.{HasTokens};

use crate::token::{Scan, next_token};
use arrayvec::ArrayVec;

/// No line of the grammar has more tokens.
const MAX_TOKENS: usize = 9;

/// The tokens of a line; `None` if octets of it begin no token, or there are too many.
pub(crate) fn tokens(line: &[u8]) -> Option<ArrayVec<&[u8], MAX_TOKENS>>
    ensures some { IfSome result
        (λ found. HasTokens line.now (map (λ token. token.now) found.items)) }
    ensures none { IfNone result ((ts : List (List ℕ)) →
        HasTokens line.now ts → MAX_TOKENS < length ts) }
{
    let mut found: ArrayVec<&[u8], MAX_TOKENS> = ArrayVec::new();
    let mut rest = line;
    loop {
        match next_token(rest) {
            Scan::End => return Some(found),
            Scan::Bad => return None,
            Scan::Found(token, after) => {
                if found.is_full() {
                    return None;
                }
                found.push(token);
                rest = after;
            }
        }
    }
}
