//! Edits of groupings.

/// A text is the terms of a grouping, which is found by its name; escapes are those before the grouping. Of the first script items 1 to
/// 3 declare, and `z` is defined nowhere; items 4 to 7 define `v`, `w`, `r` and `stem`. The last script has a backwardmode.
pub(crate) const GROUPING_EDITS: &str =
    "= groupings ( v w z ) routines ( r ) externals ( stem )¶define v 'ae'¶define w v + 'y'¶define r as w¶define stem as ( v or r )
grouping v||48 7 Syntax at 0
grouping v|  // none|48 7 Syntax at 9
grouping v|+ 'a'|48 7 Syntax at 0
grouping v|as next|48 7 Syntax at 0
grouping v|'a' 'b'|48 7 Syntax at 4
grouping v|'a' +|48 7 Syntax at 5
grouping v|'a' - 'b' define w 'c'|48 7 Syntax at 10
grouping v|'a|48 2 UnclosedString at 0
grouping v|'b' + sizeof|48 20 OutOfProfile at 6
grouping v|v|48 13 Undefined in item 4
grouping v|'a' - w|48 13 Undefined in item 4
grouping v|'a' + z|48 13 Undefined in item 4
grouping v|r|48 11 WrongKind in item 4
grouping v|'a' + stem|48 11 WrongKind in item 4
grouping v|nowhere|48 10 Undeclared in item 4
grouping w|'x' + v - 'a'|
grouping stem|'a'|53 NoGrouping
grouping r|'a'|53 NoGrouping
grouping z|'a'|53 NoGrouping
grouping nope|'a'|53 NoGrouping
grouping |'a'|53 NoGrouping
grouping stem|'a|53 NoGrouping
grouping nope|nowhere|53 NoGrouping
routine v|true|45 NoRoutine
among v 1|among ( 'a' )|45 NoRoutine
= stringescapes {} stringdef a 'x' groupings ( v ) externals ( stem ) define v 'q' stringdef a 'y' stringdef c 'z' stringescapes [] define stem as v
grouping v|'{c}'|48 4 UnknownEscape at 1
= groupings ( u v ) externals ( stem ) backwardmode ( stringescapes {} stringdef a 'x' define v 'q' stringdef a 'y' define u v ) define stem as u
grouping v|u|48 13 Undefined in item 5";

/// Escapes are those before the grouping, also in a backwardmode. A grouping with its own text is the same.
pub(crate) const GROUPING_TEXTS: &str =
    "= stringescapes {} stringdef a 'x' groupings ( v ) externals ( stem ) define v 'q' stringdef a 'y' stringdef c 'z' stringescapes [] define stem as v
grouping v|'{a}'|stringescapes {} stringdef a 'x' groupings ( v ) externals ( stem ) define v '{a}' stringdef a 'y' stringdef c 'z' stringescapes [] define stem as v
grouping v|'{a}' + '[a]' - 'y'|stringescapes {} stringdef a 'x' groupings ( v ) externals ( stem ) define v '{a}' + '[a]' - 'y' stringdef a 'y' stringdef c 'z' stringescapes [] define stem as v
grouping v|'q'|same
= groupings ( u v ) externals ( stem ) backwardmode ( stringescapes {} stringdef a 'x' define v 'q' stringdef a 'y' define u v ) define stem as u
grouping v|'{a}'|groupings ( u v ) externals ( stem ) backwardmode ( stringescapes {} stringdef a 'x' define v '{a}' stringdef a 'y' define u v ) define stem as u
= PORTER
grouping v|'aeiouy'|same
grouping v_WXY|v+'wxY'// the same|same
grouping v|'aeiou' + 'y'|another
grouping v_WXY|v|another
grouping v_WXY|'wxY'|another";
