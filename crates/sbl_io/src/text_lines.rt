//! The lines of a text in memory.
ghost use Rattle.std.specs.Prelude.{◌≡◌, ◌≤◌, ◌<◌, MatchOption, [], ◌∷◌, length, take, slice_index};
ghost use Rattle.std.specs.Str.Lines.{strip_carriage_return};
ghost use Rattle.sbl_io.specs.inside.LineSteps.{NoFeed};
ghost use Rattle.sbl_io.specs.LinesOf.{lines_of};

/// Returns the index of the first line feed, or the number of bytes if there is none.
pub(crate) fn first_feed(bytes: &[u8]) -> usize
    ensures inside { result ≤ length bytes.now }
    ensures free { NoFeed (take result bytes.now) }
    ensures feed { result < length bytes.now → slice_index bytes.now result ≡ 10 }
{
    for at in 0..bytes.len() {
        if bytes[at] == b'\n' {
            return at;
        }
    }
    bytes.len()
}

/// Returns the line without a carriage return at its end.
fn without_return(line: &[u8]) -> &[u8]
    ensures { result.now ≡ strip_carriage_return line.now }
{
    match line.split_last() {
        Some((b'\r', prefix)) => prefix,
        _ => line,
    }
}

/// Returns the first line of a text and the text after it, or `None` if the text is empty.
pub fn first_line(text: &[u8]) -> Option<(&[u8], &[u8])>
    ensures lines { MatchOption result (lines_of text.now ≡ []) (λ p. lines_of text.now ≡ p.0.now ∷ lines_of p.1.now) }
    ensures fewer { MatchOption result (text.now ≡ []) (λ p. length p.1.now < length text.now) }
{
    if text.is_empty() {
        return None;
    }
    let end = first_feed(text);
    let line = without_return(&text[..end]);
    if end == text.len() {
        return Some((line, &text[end..]));
    }
    Some((line, &text[end + 1..]))
}
