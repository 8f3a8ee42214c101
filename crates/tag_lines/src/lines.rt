//! Splits a text into lines, and a line into words.
ghost use Rattle.std.specs.Prelude.{◌≡◌, ◌<◌, ◌++◌, [], ◌∷◌, drop, length, IfSome, IsNone, MatchOption};
ghost use Rattle.tag_lines.specs.Lines.{lines_of, parts_of, has_gap, LacksByte};

/// The largest text that is read, in bytes: 16 MiB.
pub const MAX_INPUT: usize = 16_777_216;

/// The byte that ends a line.
pub const LINE_FEED: u8 = b'\n';

/// The byte that separates the words of a line.
const BLANK: u8 = b' ';

/// The first line of a text that isn't empty, without its line feed, and the text behind it.
pub fn cut_line(text: &[u8]) -> (&[u8], &[u8])
    requires { 0 < length text.now }
    ensures lines { lines_of text.now ≡ result.0.now ∷ lines_of result.1.now }
    ensures shorter { length result.1.now < length text.now }
{
    let (line, rest) = cut(text, LINE_FEED);
    match rest {
        Some(rest) => (line, rest),
        None => (line, &[]),
    }
}

/// The first part of a line, and what follows the blank behind it, or `None` if it is the last part.
pub fn cut_word(line: &[u8]) -> (&[u8], Option<&[u8]>)
    ensures first { parts_of line.now ≡ result.0.now ∷ drop 1 (parts_of line.now) }
    ensures last { IsNone result.1 → parts_of line.now ≡ result.0.now ∷ [] }
    ensures more { IfSome result.1 (λ rest. parts_of line.now ≡ result.0.now ∷ parts_of rest.now) }
    ensures text { IfSome result.1 (λ rest. line.now ≡ result.0.now ++ 32 ∷ rest.now) }
    ensures shorter { IfSome result.1 (λ rest. length rest.now < length line.now) }
{
    cut(line, BLANK)
}

/// Splits the text at the first byte `at` into what precedes and what follows it. Without one: all of it, and `None`.
fn cut(text: &[u8], at: u8) -> (&[u8], Option<&[u8]>)
    ensures part { LacksByte at result.0.now }
    ensures whole { MatchOption result.1 (text.now ≡ result.0.now) (λ rest. text.now ≡ result.0.now ++ at ∷ rest.now) }
    ensures shorter { IfSome result.1 (λ rest. length rest.now < length text.now) }
{
    match text.iter().position(|byte| *byte == at) {
        Some(end) => (&text[..end], Some(&text[end + 1..])),
        None => (text, None),
    }
}

/// Whether the line has an empty part: it is empty, starts or ends with a blank, or has two blanks in a row.
pub fn has_gap(line: &[u8]) -> bool
    ensures { result ≡ has_gap (parts_of line.now) }
{
    line.split(|byte| *byte == BLANK)
        .any(|part| part.is_empty())
}
