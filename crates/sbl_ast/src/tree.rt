//! The AST of a script (Snowball manual, "Syntax of Snowball"). A tree has no source positions.

/// The kind of the names in a declaration.
#[derive(Clone, Copy, Debug, PartialEq, Eq)]
pub enum DeclarationKind {
    /// `strings`
    Strings,
    /// `integers`
    Integers,
    /// `booleans`
    Booleans,
    /// `routines`
    Routines,
    /// `externals`
    Externals,
    /// `groupings`
    Groupings,
}

/// The base of the numbers in a macro's value.
#[derive(Clone, Copy, Debug, PartialEq, Eq)]
pub enum Base {
    /// `hex`
    Hex,
    /// `decimal`
    Decimal,
}

/// The word between two commands of a row.
#[derive(Clone, Copy, Debug, PartialEq, Eq)]
pub enum Joiner {
    /// `or`
    Or,
    /// `and`
    And,
}

/// A command of one token, other than a name.
#[derive(Clone, Copy, Debug, PartialEq, Eq)]
pub enum Simple {
    /// `[`
    LeftBracket,
    /// `]`
    RightBracket,
    /// `substring`
    Substring,
    /// `next`
    Next,
    /// `tolimit`
    ToLimit,
    /// `atlimit`
    AtLimit,
    /// `delete`
    Delete,
    /// `true`
    True,
    /// `false`
    False,
}

/// A word before a command.
#[derive(Clone, Copy, Debug, PartialEq, Eq)]
pub enum Prefix {
    /// `not`
    Not,
    /// `test`
    Test,
    /// `try`
    Try,
    /// `do`
    Do,
    /// `fail`
    Fail,
    /// `repeat`
    Repeat,
    /// `goto`
    GoTo,
    /// `gopast`
    GoPast,
    /// `backwards`
    Backwards,
}

/// A word before a repeat count and a command.
#[derive(Clone, Copy, Debug, PartialEq, Eq)]
pub enum Count {
    /// `loop`
    Loop,
    /// `atleast`
    AtLeast,
}

/// A word before an arithmetic expression.
#[derive(Clone, Copy, Debug, PartialEq, Eq)]
pub enum Move {
    /// `hop`
    Hop,
    /// `atmark`
    AtMark,
    /// `tomark`
    ToMark,
}

/// A word or sign before the name of a variable.
#[derive(Clone, Copy, Debug, PartialEq, Eq)]
pub enum Naming {
    /// `setmark`
    SetMark,
    /// `set`
    Set,
    /// `unset`
    Unset,
    /// `->`
    Arrow,
}

/// A word or sign before a string.
#[derive(Clone, Copy, Debug, PartialEq, Eq)]
pub enum Splice {
    /// `<-`
    Replace,
    /// `<+`
    InsertSign,
    /// `insert`
    Insert,
    /// `attach`
    Attach,
}

/// A sign between two terms.
#[derive(Clone, Copy, Debug, PartialEq, Eq)]
pub enum Additive {
    /// `+`
    Plus,
    /// `-`
    Minus,
}

/// A sign between two factors.
#[derive(Clone, Copy, Debug, PartialEq, Eq)]
pub enum Multiplicative {
    /// `*`
    Times,
    /// `/`
    Over,
}

/// A sign that assigns a value to an integer.
#[derive(Clone, Copy, Debug, PartialEq, Eq)]
pub enum Assignment {
    /// `=`
    Equals,
    /// `+=`
    Plus,
    /// `-=`
    Minus,
    /// `*=`
    Times,
    /// `/=`
    Over,
}

/// A sign that compares two numbers.
#[derive(Clone, Copy, Debug, PartialEq, Eq)]
pub enum Comparison {
    /// `==`
    Same,
    /// `!=`
    Differs,
    /// `<`
    Less,
    /// `<=`
    AtMost,
    /// `>`
    Greater,
    /// `>=`
    AtLeast,
}

/// A word for a number.
#[derive(Clone, Copy, Debug, PartialEq, Eq)]
pub enum Constant {
    /// `maxint`
    MaxInt,
    /// `minint`
    MinInt,
    /// `cursor`
    Cursor,
    /// `limit`
    Limit,
    /// `len`
    Len,
}

/// A literal string.
#[derive(Debug, Drop)]
pub struct Literal {
    /// The text between the quotes.
    pub spelling: String,
    /// The characters that the literal means.
    pub value: Vec<char>,
}

/// A literal, or a name that can be used instead.
#[derive(Debug, Drop)]
pub enum Argument {
    /// A literal.
    Literal(Literal),
    /// The name of a string or a grouping.
    Name(String),
}

/// An arithmetic expression: products that are added and subtracted from left to right.
#[cycle(arithmetic)]
#[derive(Drop)]
pub struct Expression {
    /// The first product.
    pub first: Product,
    /// The products after it.
    pub others: Vec<NextProduct>,
}

/// A product after the first one of an expression.
#[cycle(arithmetic)]
#[derive(Drop)]
pub struct NextProduct {
    /// The sign before it.
    pub operator: Additive,
    /// The product.
    pub product: Product,
}

/// A product: factors that are multiplied and divided from left to right.
#[cycle(arithmetic)]
#[derive(Drop)]
pub struct Product {
    /// The first factor.
    pub first: Factor,
    /// The factors after it.
    pub others: Vec<NextFactor>,
}

/// A factor after the first one of a product.
#[cycle(arithmetic)]
#[derive(Drop)]
pub struct NextFactor {
    /// The sign before it.
    pub operator: Multiplicative,
    /// The factor.
    pub factor: Factor,
}

/// A factor of a product.
#[cycle(arithmetic)]
#[derive(Drop)]
pub enum Factor {
    /// `- F`
    Minus(Box<Factor>),
    /// `( E )`
    Bracket(Box<Expression>),
    /// A number.
    Number(u32),
    /// The name of an integer.
    Name(String),
    /// `maxint`, `minint`, `cursor`, `limit` or `len`
    Constant(Constant),
    /// `lenof S`
    LenOf(Argument),
}

/// A command (Snowball manual, from "String commands" to "Among").
#[cycle(tree)]
#[derive(Drop)]
pub enum Command {
    /// `( C1 C2 or C3 .. )`
    Bracket(Vec<RowOfCommands>),
    /// A command of one word or sign.
    Simple(Simple),
    /// `'abc'`
    Literal(Literal),
    /// The name of a routine, external, grouping, string or boolean.
    Name(String),
    /// `non G`, or `non - G` with the minus.
    Non {
        /// Whether the minus sign is written.
        with_minus: bool,
        /// The name of the grouping.
        name: String,
    },
    /// `not C` and similar commands
    Prefixed(Prefix, Box<Command>),
    /// `loop E C`, `atleast E C`
    Counted(Count, Expression, Box<Command>),
    /// `hop E`, `atmark E`, `tomark E`
    Move(Move, Expression),
    /// `setmark X`, `set X`, `unset X`, `-> X`
    Named(Naming, String),
    /// `<- S`, `<+ S`, `insert S`, `attach S`
    Splice(Splice, Argument),
    /// `setlimit C1 for C2`
    SetLimit(Box<Command>, Box<Command>),
    /// `$ X = E` and similar commands
    Assign(String, Assignment, Expression),
    /// `$ X == E` and similar commands
    Compare(String, Comparison, Expression),
    /// `$ ( E1 == E2 )` and similar commands
    CompareValues(Expression, Comparison, Expression),
    /// `among ( .. )`
    Among(Among),
}

/// A row: commands with `or` or `and` between them.
#[cycle(tree)]
#[derive(Drop)]
pub struct RowOfCommands {
    /// The first command.
    pub first: Command,
    /// The commands after it.
    pub others: Vec<NextCommand>,
}

/// A command after the first one of a row.
#[cycle(tree)]
#[derive(Drop)]
pub struct NextCommand {
    /// The word before it.
    pub joiner: Joiner,
    /// The command.
    pub command: Command,
}

/// An `among`: its starter, its groups, and the strings after the last `)`, which have no commands.
#[cycle(tree)]
#[derive(Drop)]
pub struct Among {
    /// The starter: the commands in parentheses before the first string.
    pub starter: Option<Vec<RowOfCommands>>,
    /// The groups: strings with commands in parentheses after them.
    pub groups: Vec<Group>,
    /// The strings after the last group, which have no commands.
    pub bare: Vec<Entry>,
}

/// Strings of an `among`, and the commands that run if one of them is chosen.
#[cycle(tree)]
#[derive(Drop)]
pub struct Group {
    /// The first string.
    pub first: Entry,
    /// The strings after it.
    pub others: Vec<Entry>,
    /// The commands in the parentheses of the group.
    pub rows: Vec<RowOfCommands>,
}

/// A string of an `among`.
#[derive(Debug, Drop)]
pub struct Entry {
    /// The string.
    pub string: Literal,
    /// The name of the routine that must signal t for the string to match.
    pub condition: Option<String>,
}

/// A term after the first one of a grouping.
#[derive(Debug, Drop)]
pub struct Term {
    /// Whether the characters are added or removed.
    pub operator: Additive,
    /// The characters to add or remove.
    pub argument: Argument,
}

/// The definition of a grouping: its terms are added and removed from left to right.
#[derive(Debug, Drop)]
pub struct Grouping {
    /// The name of the grouping.
    pub name: String,
    /// The first term.
    pub first: Argument,
    /// The terms after it.
    pub others: Vec<Term>,
}

/// An item that is allowed in a `backwardmode`.
#[derive(Drop)]
pub enum Plain {
    /// `routines ( A B .. )` and similar declarations
    Declaration(DeclarationKind, Vec<String>),
    /// `stringescapes AB`
    StringEscapes(char, char),
    /// `stringdef M 'abc'`, with `hex` or `decimal` before the literal
    StringDef {
        /// The name of the macro.
        name: String,
        /// The base of the numbers in the literal; `None` if the literal is the value itself.
        base: Option<Base>,
        /// The literal.
        value: Literal,
    },
    /// `define NAME as R`
    Routine {
        /// The name of the routine.
        name: String,
        /// The body of the routine.
        body: RowOfCommands,
    },
    /// `define NAME T1 + T2 - T3 ..`
    Grouping(Grouping),
}

/// An item of a script.
#[derive(Drop)]
pub enum ScriptItem {
    /// An item outside a `backwardmode`.
    Plain(Plain),
    /// `backwardmode ( .. )`
    BackwardMode(Vec<Plain>),
}
