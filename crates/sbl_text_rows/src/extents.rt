//! Where a definition and an among end.

ghost use Rattle.std.specs.Prelude.{◌≡◌, ◌<◌, ◌+◌, ◌^◌, map};
ghost use Rattle.sbl_token.specs.Lexemes.{lexeme_of};
ghost use Rattle.sbl_text.specs.Tokens.{placed_of};
ghost use Rattle.sbl_source_map.specs.PartTokens as parts;
ghost use Rattle.sbl_text_rows.specs.PlaceRows.{end_after};

use sbl_source_map::{begins_item, depth_after};
use sbl_text::{Kind, Sign, Token};

/// Whether a token closes a parenthesis.
fn closes(token: &Token<'_>) -> bool
    ensures { result ≡ parts.closes (lexeme_of token.now) }
{
    matches!(token.kind, Kind::Sign(Sign::Close))
}

/// Whether a token begins an item, or ends the parentheses that items are in.
fn ends_item(token: &Token<'_>) -> bool
    ensures { result ≡ parts.ends_item (lexeme_of token.now) }
{
    match token.kind {
        Kind::Word(word) => begins_item(word),
        _ => closes(token),
    }
}

/// Returns where an item ends, given the end of its first token and the tokens after that.
pub(crate) fn item_end(first: usize, tokens: &[Token<'_>]) -> usize
    ensures { result ≡ end_after first (parts.until_end 0 (map placed_of tokens.now)) }
{
    let mut end = first;
    let mut depth: usize = 0;
    for token in tokens {
        if depth == 0 && ends_item(token) {
            return end;
        }
        depth = depth_after(token, depth);
        end = token.end;
    }
    end
}

/// Returns where the parenthesis ends that closes the first one that opens, given the end of the token before these.
pub(crate) fn closed_end(first: usize, tokens: &[Token<'_>]) -> usize
    ensures { result ≡ end_after first (parts.until_closed 0 (map placed_of tokens.now)) }
{
    let mut end = first;
    let mut depth: usize = 0;
    for token in tokens {
        end = token.end;
        if closes(token) && depth <= 1 {
            return end;
        }
        depth = depth_after(token, depth);
    }
    end
}
