//! Laws of the lexer.

ghost use Rattle.sbl_text.specs.Laws.{FirstFaultIsOne, LiteralIsOne, NextIsFirst, NoneIsLast, PlacesAreOne, SameFaultAgain, SignsDiffer, SpacedAreRead, TokensAreSaid, TokensAreOne, TokensOrFault, WordsAreRead};

/// A text has at most one list of tokens, and the tokens have one list of positions.
pub fn tokens_are_one()
    ensures tokens { TokensAreOne }
    ensures places { PlacesAreOne }
{}

/// A text has at most one first fault, and a text with a fault has no list of tokens.
pub fn first_fault_is_one()
    ensures fault { FirstFaultIsOne }
    ensures either { TokensOrFault }
{}

/// After a fault other than `OutOfMemory` the lexer returns the same fault again.
pub fn same_fault_again()
    ensures { SameFaultAgain }
{}

/// Each reserved word is read from its own text, and no two signs have the same text.
pub fn words_and_signs_are_read()
    ensures words { WordsAreRead }
    ensures signs { SignsDiffer }
{}

/// The spelling of a literal has at most one result: a value or a fault.
pub fn literal_is_one()
    ensures { LiteralIsOne }
{}

/// The tokens that a lexer returns, one after another up to `None`, are the tokens of its text.
pub fn nexts_are_tokens()
    ensures next { NextIsFirst }
    ensures none { NoneIsLast }
{}

/// Lexemes that can be written, each followed by a white space character, are read back from that text; and the tokens
/// of every text can be written.
pub fn spaced_are_read()
    ensures read { SpacedAreRead }
    ensures said { TokensAreSaid }
{}
