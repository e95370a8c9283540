//! The start of a text, up to a given rest.

ghost use Rattle.std.specs.Prelude.{◌+◌, ◌^◌, ◌≤◌, ◌≡◌, ◌<◌, ◌∷◌, ◌++◌, [], List, ℕ, length, encode_utf8_all};
ghost use Rattle.std.specs.Str.{chars};

use sbl_token::split_first;

/// Returns the part of `text` before `rest`, which is a suffix of `text`.
pub fn prefix_before<'a>(text: &'a str, rest: &str) -> &'a str
    requires { (x : List ℕ) × (chars text.now ≡ x ++ chars rest.now) }
    ensures characters { (x : List ℕ) → chars text.now ≡ x ++ chars rest.now → chars result.now ≡ x }
    ensures bytes { (x : List ℕ) → chars text.now ≡ x ++ chars rest.now → result.now ≡ encode_utf8_all x }
    ensures within { length result.now ≤ length text.now }
{
    &text[..text.len() - rest.len()]
}

/// Returns the byte offset in `source` of `rest`, which is a suffix of `source`.
pub fn place_of(source: &str, rest: &str) -> usize
    requires { (x : List ℕ) × (chars source.now ≡ x ++ chars rest.now) }
    ensures place { (x : List ℕ) → chars source.now ≡ x ++ chars rest.now → result ≡ length (encode_utf8_all x) }
    ensures room { result + length rest.now < 2 ^ 64 }
    ensures within { result ≤ length source.now }
{
    source.len() - rest.len()
}

/// Returns the text between the quotes of a literal.
pub fn between_quotes(text: &str) -> &str
    requires { (x : List ℕ) × (chars text.now ≡ 39 ∷ (x ++ 39 ∷ [])) }
    ensures characters { (x : List ℕ) → chars text.now ≡ 39 ∷ (x ++ 39 ∷ []) → chars result.now ≡ x }
    ensures bytes { (x : List ℕ) → chars text.now ≡ 39 ∷ (x ++ 39 ∷ []) → result.now ≡ encode_utf8_all x }
{
    match split_first(text) {
        Some((_, tail)) => prefix_before(tail, "'"),
        None => text,
    }
}
