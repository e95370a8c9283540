//! What the tokens up to one say of it.

ghost use Rattle.std.specs.Prelude.{◌≡◌, ◌<◌, ◌+◌, ◌^◌, OnOk};
ghost use Rattle.sbl_token.specs.Lexemes.{lexeme_of};
ghost use Rattle.sbl_text.specs.Tokens.{placed_of};
ghost use Rattle.sbl_source_map.specs.PartTokens.{is_define};
ghost use Rattle.sbl_source_map.specs.SubjectTokens.{is_among};
ghost use Rattle.sbl_text_rows.specs.PlaceRows as spec;
ghost use Rattle.sbl_text_rows.specs.PlaceRows.{amongs_after, brackets_after, name_after};
ghost use Rattle.sbl_text_rows.specs.Views.{context_of};

use sbl_text::{Kind, Sign, Token, Word};
use std::alloc::{AllocError, Global};

/// What the tokens that were passed say of the next one.
#[derive(Drop)]
pub(crate) struct Walk<'a> {
    // The name of the definition that was begun last.
    name: &'a str,
    // How many words `among` there were since.
    amongs: usize,
    // For each open parenthesis the number of its among, 0 if it is not one's; the innermost is last.
    open: Vec<usize>,
    follows_define: bool,
    follows_among: bool,
    is_declared: bool,
}

/// Whether a token is the word `define`.
fn is_define(token: &Token<'_>) -> bool
    ensures { result ≡ is_define (lexeme_of token.now) }
{
    matches!(token.kind, Kind::Word(Word::Define))
}

/// Whether a token is the word `among`.
fn is_among(token: &Token<'_>) -> bool
    ensures { result ≡ is_among (lexeme_of token.now) }
{
    matches!(token.kind, Kind::Word(Word::Among))
}

/// Whether declarations begin with this word.
fn declares(word: Word) -> bool
    ensures { result ≡ spec.declares word }
{
    matches!(
        word,
        Word::Booleans
            | Word::Externals
            | Word::Groupings
            | Word::Integers
            | Word::Routines
            | Word::Strings
    )
}

impl<'a> Walk<'a> {
    /// Returns the walk before the first token. Does not allocate.
    pub(crate) fn new(alloc: Global) -> Walk<'a>
        ensures { context_of result ≡ spec.beginning }
    {
        Walk {
            name: "",
            amongs: 0,
            open: Vec::new(alloc),
            follows_define: false,
            follows_among: false,
            is_declared: false,
        }
    }

    /// The name of the definition that was begun last.
    pub(crate) fn name(&self) -> &'a str
        ensures { result.now ≡ (context_of self.now).name }
    {
        self.name
    }

    /// The number of the next among of that definition.
    pub(crate) fn next_among(&self) -> usize
        requires { (context_of self.now).amongs + 1 < 2 ^ 64 }
        ensures { result ≡ (context_of self.now).amongs + 1 }
    {
        self.amongs + 1
    }

    /// The number of the among whose parentheses are the innermost open ones; 0 if these are not an among's.
    pub(crate) fn among(&self) -> usize
        ensures { result ≡ spec.innermost (context_of self.now).brackets }
    {
        match self.open.last() {
            Some(number) => *number,
            None => 0,
        }
    }

    /// What a name is there for.
    pub(crate) fn role(&self) -> &'static str
        ensures { result.now ≡ spec.role_field (context_of self.now) }
    {
        if self.is_declared {
            "declared"
        } else if self.follows_define {
            "defined"
        } else {
            "used"
        }
    }

    /// Goes past the parentheses of a token. Returns `AllocError` if an allocation fails.
    fn pass_brackets(&mut self, token: &Token<'_>) -> Result<(), AllocError>
        ensures { OnOk result (context_of self.new ≡ record (context_of self.old) { brackets = brackets_after (context_of self.old) (lexeme_of token.now) }) }
    {
        match token.kind {
            Kind::Sign(Sign::Open) => {
                let number = if self.follows_among { self.amongs } else { 0 };
                self.open.push(number)?;
            }
            Kind::Sign(Sign::Close) => {
                self.open.pop();
            }
            _ => {}
        }
        Ok(())
    }

    /// Goes past the name of a definition or past an among, if the token is one's.
    fn pass_words(&mut self, token: &Token<'a>)
        requires { (context_of self.old).amongs + 1 < 2 ^ 64 }
        ensures { context_of self.new ≡ record (context_of self.old) { name = name_after (context_of self.old) token.now.text.now; amongs = amongs_after (context_of self.old) (lexeme_of token.now) } }
    {
        if self.follows_define {
            self.name = token.text;
            self.amongs = 0;
        } else if is_among(token) {
            self.amongs += 1;
        }
    }

    /// Whether the token after this one is in a declaration.
    fn declares_after(&self, token: &Token<'_>) -> bool
        ensures { result ≡ spec.declared_after (context_of self.now).is_declared (lexeme_of token.now) }
    {
        match token.kind {
            Kind::Word(word) => declares(word),
            Kind::Sign(Sign::Close) => false,
            _ => self.is_declared,
        }
    }

    /// Goes past a token. Returns `AllocError` if an allocation fails.
    pub(crate) fn pass(&mut self, token: &Token<'a>) -> Result<(), AllocError>
        requires { (context_of self.old).amongs + 1 < 2 ^ 64 }
        ensures { OnOk result (context_of self.new ≡ spec.after (context_of self.old) (placed_of token.now)) }
    {
        self.pass_brackets(token)?;
        self.pass_words(token);
        self.is_declared = self.declares_after(token);
        self.follows_define = is_define(token);
        self.follows_among = is_among(token);
        Ok(())
    }
}
