//! The reserved words.

ghost use Rattle.std.specs.Prelude.{◌≡◌};
ghost use Rattle.sbl_token.specs.Lookup.{found_in};
ghost use Rattle.sbl_token.specs.Words as spec;

/// A reserved word (Snowball manual, "The language"). A name is never a reserved word (our own choice).
#[derive(Clone, Copy, Debug, PartialEq, Eq)]
pub enum Word {
    /// `among`
    Among,
    /// `and`
    And,
    /// `as`
    As,
    /// `atleast`
    AtLeast,
    /// `atlimit`
    AtLimit,
    /// `atmark`
    AtMark,
    /// `attach`
    Attach,
    /// `backwardmode`
    BackwardMode,
    /// `backwards`
    Backwards,
    /// `booleans`
    Booleans,
    /// `cursor`
    Cursor,
    /// `decimal`
    Decimal,
    /// `define`
    Define,
    /// `delete`
    Delete,
    /// `do`
    Do,
    /// `externals`
    Externals,
    /// `fail`
    Fail,
    /// `false`
    False,
    /// `for`
    For,
    /// `get`
    Get,
    /// `gopast`
    GoPast,
    /// `goto`
    GoTo,
    /// `groupings`
    Groupings,
    /// `hex`
    Hex,
    /// `hop`
    Hop,
    /// `insert`
    Insert,
    /// `integers`
    Integers,
    /// `len`
    Len,
    /// `lenof`
    LenOf,
    /// `limit`
    Limit,
    /// `loop`
    Loop,
    /// `maxint`
    MaxInt,
    /// `minint`
    MinInt,
    /// `next`
    Next,
    /// `non`
    Non,
    /// `not`
    Not,
    /// `or`
    Or,
    /// `repeat`
    Repeat,
    /// `reverse`
    Reverse,
    /// `routines`
    Routines,
    /// `set`
    Set,
    /// `setlimit`
    SetLimit,
    /// `setmark`
    SetMark,
    /// `size`
    Size,
    /// `sizeof`
    SizeOf,
    /// `stringdef`
    StringDef,
    /// `stringescapes`
    StringEscapes,
    /// `strings`
    Strings,
    /// `substring`
    Substring,
    /// `test`
    Test,
    /// `tolimit`
    ToLimit,
    /// `tomark`
    ToMark,
    /// `true`
    True,
    /// `try`
    Try,
    /// `unset`
    Unset,
}

/// All reserved words.
const WORDS: [Word; 55] = [
    Word::Among,
    Word::And,
    Word::As,
    Word::AtLeast,
    Word::AtLimit,
    Word::AtMark,
    Word::Attach,
    Word::BackwardMode,
    Word::Backwards,
    Word::Booleans,
    Word::Cursor,
    Word::Decimal,
    Word::Define,
    Word::Delete,
    Word::Do,
    Word::Externals,
    Word::Fail,
    Word::False,
    Word::For,
    Word::Get,
    Word::GoPast,
    Word::GoTo,
    Word::Groupings,
    Word::Hex,
    Word::Hop,
    Word::Insert,
    Word::Integers,
    Word::Len,
    Word::LenOf,
    Word::Limit,
    Word::Loop,
    Word::MaxInt,
    Word::MinInt,
    Word::Next,
    Word::Non,
    Word::Not,
    Word::Or,
    Word::Repeat,
    Word::Reverse,
    Word::Routines,
    Word::Set,
    Word::SetLimit,
    Word::SetMark,
    Word::Size,
    Word::SizeOf,
    Word::StringDef,
    Word::StringEscapes,
    Word::Strings,
    Word::Substring,
    Word::Test,
    Word::ToLimit,
    Word::ToMark,
    Word::True,
    Word::Try,
    Word::Unset,
];

impl Word {
    /// Returns the text of the word.
    pub fn text(self) -> &'static str
        ensures { result.now ≡ spec.word_text self }
    {
        match self {
            Word::Among => "among",
            Word::And => "and",
            Word::As => "as",
            Word::AtLeast => "atleast",
            Word::AtLimit => "atlimit",
            Word::AtMark => "atmark",
            Word::Attach => "attach",
            Word::BackwardMode => "backwardmode",
            Word::Backwards => "backwards",
            Word::Booleans => "booleans",
            Word::Cursor => "cursor",
            Word::Decimal => "decimal",
            Word::Define => "define",
            Word::Delete => "delete",
            Word::Do => "do",
            Word::Externals => "externals",
            Word::Fail => "fail",
            Word::False => "false",
            Word::For => "for",
            Word::Get => "get",
            Word::GoPast => "gopast",
            Word::GoTo => "goto",
            Word::Groupings => "groupings",
            Word::Hex => "hex",
            Word::Hop => "hop",
            Word::Insert => "insert",
            Word::Integers => "integers",
            Word::Len => "len",
            Word::LenOf => "lenof",
            Word::Limit => "limit",
            Word::Loop => "loop",
            Word::MaxInt => "maxint",
            Word::MinInt => "minint",
            Word::Next => "next",
            Word::Non => "non",
            Word::Not => "not",
            Word::Or => "or",
            Word::Repeat => "repeat",
            Word::Reverse => "reverse",
            Word::Routines => "routines",
            Word::Set => "set",
            Word::SetLimit => "setlimit",
            Word::SetMark => "setmark",
            Word::Size => "size",
            Word::SizeOf => "sizeof",
            Word::StringDef => "stringdef",
            Word::StringEscapes => "stringescapes",
            Word::Strings => "strings",
            Word::Substring => "substring",
            Word::Test => "test",
            Word::ToLimit => "tolimit",
            Word::ToMark => "tomark",
            Word::True => "true",
            Word::Try => "try",
            Word::Unset => "unset",
        }
    }
}

fn lookup(mut words: &[Word], text: &str) -> Option<Word>
    ensures { result ≡ found_in words.entry.now text.now }
{
    while let [word, rest @ ..] = words {
        if word.text() == text {
            return Some(*word);
        }
        words = rest;
    }
    None
}

/// Returns the reserved word with exactly this text, or `None` if there is none. Case matters (Snowball manual, "The
/// language").
pub fn word_of(text: &str) -> Option<Word>
    ensures { result ≡ spec.word_of text.now }
{
    lookup(&WORDS, text)
}
