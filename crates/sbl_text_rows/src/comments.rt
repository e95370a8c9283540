//! Comments, and the white space around them.

ghost use Rattle.std.specs.Prelude.{◌≡◌, ◌≤◌, ◌<◌, IfSome, MatchOption, None, Some, length, option_map};
ghost use Rattle.std.specs.Str.{chars};
ghost use Rattle.sbl_text.specs.Classes.{is_white};
ghost use Rattle.sbl_text.specs.Scan.{past_block};
ghost use Rattle.sbl_text_rows.specs.Gaps as spec;

use sbl_token::split_first;

/// A comment or a white space character at the beginning of a text.
#[derive(Clone, Copy, Debug)]
pub(crate) struct GapEnd<'a> {
    /// Whether it is a comment.
    pub(crate) is_comment: bool,
    /// The text after it.
    pub(crate) rest: &'a str,
}

/// Whether a character is white space.
fn is_white(c: char) -> bool
    ensures { result ≡ is_white c }
{
    ('\t' <= c && c <= '\r') || (c == ' ' || c == '\u{feff}')
}

/// Returns the text from its first line feed on.
fn past_line(mut text: &str) -> &str
    ensures value { chars result.now ≡ spec.past_line (chars text.entry.now) }
    ensures within { length result.now ≤ length text.entry.now }
{
    while let Some((c, rest)) = split_first(text) {
        if c == '\n' {
            return text;
        }
        text = rest;
    }
    text
}

/// Returns the text after its first `*/`; `None` if it has none.
fn past_block(mut text: &str) -> Option<&str>
    ensures value { MatchOption result (past_block (chars text.entry.now) ≡ None) (λ r. past_block (chars text.entry.now) ≡ Some (chars r.now)) }
    ensures within { IfSome result (λ r. length r.now < length text.entry.now) }
{
    while let Some((c, rest)) = split_first(text) {
        if c == '*' {
            if let Some(('/', following)) = split_first(rest) {
                return Some(following);
            }
        }
        text = rest;
    }
    None
}

/// Returns the text after a comment, given the text after the slash that the comment begins with; `None` if no comment begins there.
fn past_comment(rest: &str) -> Option<&str>
    ensures value { MatchOption result (spec.past_comment (chars rest.now) ≡ None) (λ r. spec.past_comment (chars rest.now) ≡ Some (chars r.now)) }
    ensures within { IfSome result (λ r. length r.now < length rest.now) }
{
    match split_first(rest) {
        Some(('/', following)) => Some(past_line(following)),
        Some(('*', following)) => past_block(following),
        _ => None,
    }
}

/// Returns the comment or the white space character at the beginning of a text; `None` if the text begins otherwise.
pub(crate) fn next_gap(text: &str) -> Option<GapEnd<'_>>
    ensures value { MatchOption result (spec.cut_gap (chars text.now) ≡ None) (λ g. spec.cut_gap (chars text.now) ≡ Some (spec.view_gap g)) }
    ensures within { IfSome result (λ g. length g.rest.now < length text.now) }
{
    let (c, rest) = split_first(text)?;
    if is_white(c) {
        return Some(GapEnd {
            is_comment: false,
            rest,
        });
    }
    if c != '/' {
        return None;
    }
    match past_comment(rest) {
        Some(rest) => Some(GapEnd {
            is_comment: true,
            rest,
        }),
        None => None,
    }
}
