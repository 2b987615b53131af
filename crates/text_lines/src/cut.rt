//! Cutting a text into lines.

ghost use Rattle.std.specs.Prelude.{◌≡◌, ◌≢◌, ◌<◌, ◌∷◌, [], length};
ghost use Rattle.std.specs.Str.Lines.{strip_carriage_return};
ghost use Rattle.text_lines.specs.Lines.{line_texts};

/// The line without a carriage return at its end.
pub fn without_carriage_return(line: &[u8]) -> &[u8]
    ensures { result.now ≡ strip_carriage_return line.now }
{
    match line {
        [start @ .., b'\r'] => start,
        _ => line,
    }
}

/// The first line of a text, and the text after it.
pub fn first_line(text: &[u8]) -> (&[u8], &[u8])
    requires { text.now ≢ [] }
    ensures lines { line_texts text.now ≡ result.0.now ∷ line_texts result.1.now }
    ensures shorter { length result.1.now < length text.now }
{
    for (i, octet) in text.iter().enumerate() {
        if *octet == b'\n' {
            return (without_carriage_return(&text[..i]), &text[i + 1..]);
        }
    }
    (text, &text[text.len()..])
}
