//! The tokens of a line.
ghost use Rattle.std.specs.Prelude.{◌≡◌, ◌<◌, ◌≤◌, length, take, drop};
ghost use Rattle.bpf_text.specs.Tokens.{is_word, is_sign, is_blank, AllWord, NoWord};
ghost use Rattle.bpf_text.specs.Mirror.Scans.{Scans, AfterBlanks, NoBlank};

/// What a line begins with.
#[derive(Clone, Copy)]
pub enum Scan<'a> {
    /// Nothing but blanks and a comment.
    End,
    /// Neither: what follows the blanks begins no token and no comment.
    Bad,
    /// A token and the rest.
    Found(&'a [u8], &'a [u8]),
}

pub(crate) fn is_word_octet(octet: u8) -> bool
    ensures { result ≡ is_word octet }
{
    matches!(octet, b'0'..=b'9' | b'A'..=b'Z' | b'a'..=b'z' | b'_')
}

fn is_blank_octet(octet: u8) -> bool
    ensures { result ≡ is_blank octet }
{
    octet == b' ' || octet == b'\t'
}

fn is_sign_octet(octet: u8) -> bool
    ensures { result ≡ is_sign octet }
{
    octet == b'+' || octet == b'-'
}

/// The number of octets in the longest run of letters, digits and `_` at the front.
pub(crate) fn run_len(text: &[u8]) -> usize
    ensures bound { result ≤ length text.now }
    ensures run { AllWord (take result text.now) }
    ensures longest { NoWord (drop result text.now) }
{
    text.iter()
        .position(|octet| !is_word_octet(*octet))
        .unwrap_or(text.len())
}

/// The line without the spaces and tabs at its front.
fn without_blanks(line: &[u8]) -> &[u8]
    ensures same { AfterBlanks line.now result.now }
{
    let blanks = line
        .iter()
        .position(|octet| !is_blank_octet(*octet))
        .unwrap_or(line.len());
    &line[blanks..]
}

/// The token that a line begins with.
fn token_at(line: &[u8]) -> Scan<'_>
    requires { NoBlank line.now }
    ensures { Scans line.now result }
{
    match line {
        [] | [b';', ..] => Scan::End,
        [b',' | b'[' | b']' | b':', rest @ ..] => Scan::Found(&line[..1], rest),
        [first, rest @ ..] if is_sign_octet(*first) => {
            let count = run_len(rest);
            if count == 0 {
                Scan::Bad
            } else {
                Scan::Found(&line[..count + 1], &line[count + 1..])
            }
        }
        _ => {
            let count = run_len(line);
            if count == 0 {
                Scan::Bad
            } else {
                Scan::Found(&line[..count], &line[count..])
            }
        }
    }
}

/// The next token of a line.
pub fn next_token(line: &[u8]) -> Scan<'_>
    ensures { Scans line.now result }
{
    token_at(without_blanks(line))
}
