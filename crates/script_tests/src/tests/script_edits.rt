//! Edits of routines and amongs. What sessions can show of them is tested in tests/cases.

/// A text is one whole item; the whole item is checked; escapes are those before the item; a routine is found by its name.
pub(crate) const SCRIPT_EDITS: &str = "= externals ( stem ) define stem as ( next among ( 'a' ) )
among stem 1||48 7 Syntax at 0
among stem 1|  |48 7 Syntax at 2
among stem 1|next|48 7 Syntax at 0
among stem 1|( among ( 'a' ) )|48 7 Syntax at 0
among stem 1|among ( 'a'|48 7 Syntax at 11
among stem 1|among ( 'a' )next|48 7 Syntax at 13
among stem 1|among ( 'a' )among ( 'b' )|48 7 Syntax at 13
among stem 1|among ( 'a' ))|48 7 Syntax at 13
among stem 1|among ( 'a' )define r as next|48 7 Syntax at 13
among stem 1|among ( 'a' )or next|48 7 Syntax at 13
= externals ( stem ) define stem as next
routine stem||48 7 Syntax at 0
routine stem|next define r as next|48 7 Syntax at 5
routine stem|next )|48 7 Syntax at 5
routine stem|next or|48 7 Syntax at 7
routine stem|next or next|
= externals ( stem ) define stem as ( substring among ( 'a' ) )
among stem 1|among ( ( next ) 'a' )|48 16 Starter in item 2
= externals ( stem ) define stem as among ( 'a' )
among stem 1|among ( 'a' stem nowhere )|48 7 Syntax at 17
among stem 1|among ( 'a' nowhere )|48 10 Undeclared in item 2
among stem 1|among ( 'a' ( set stem ) )|48 11 WrongKind in item 2
among stem 1|among ( 'a' 'b' ( next ) 'a' )|48 17 RepeatedString in item 2
among stem 1|among ( )|48 18 EmptyAmong in item 2
among stem 1|among ( 'a' ( substring ) )|48 15 Substring in item 2
among stem 1|among ( 'a' ( get ) )|48 20 OutOfProfile at 14
among stem 1|among ( 'a|48 2 UnclosedString at 8
= externals ( stem ) define stem as backwards among ( 'a' )
among stem 1|among ( 'a' stem )|48 14 WrongMode in item 2
among stem 1|among ( 'a' ( backwards next ) )|48 19 NestedBackwards in item 2
= stringescapes {} stringdef a 'x' externals ( stem ) define stem as among ( 'b' ) stringdef a 'y' stringdef c 'z' stringescapes []
among stem 1|among ( '{a}' 'x' )|48 17 RepeatedString in item 4
among stem 1|among ( '{a}' '[a]' 'y' )|
routine stem|'{c}'|48 4 UnknownEscape at 1
= PLURALS
routine nope||45 NoRoutine
routine nope|true|45 NoRoutine
routine stem2|nowhere|45 NoRoutine
routine last|true¶|
routine tail|nowhere|48 10 Undeclared in item 4
routine tail||48 7 Syntax at 0
routine stem|tail|48 14 WrongMode in item 6";

/// An among with its own text is the same.
pub(crate) const AMONG_TEXTS: &str = "= PORTER
among Step_1a 1|among('sses'(<-'ss')'ies'(<-'i')'ss'()'s'(delete))|same
among Step_1a 1|among('ies'(<-'i')'sses'(<-'ss')'ss'()'s'(delete))|another
among Step_1a 1|among('sses'(<-'ss')'ies'(<-'i')'ss' 's'(delete))|another
among Step_1a 1|among('sses'(<-'ss')'ies'(<-'y')'ss'()'s'(delete))|another
among Step_1b 2|among('at' 'bl' 'iz' (<+ 'e') 'bb' 'dd' 'ff' 'gg' 'mm' 'nn' 'pp' 'rr' 'tt'¶        ([next] delete) '' (atmark p1 test shortv <+ 'e'))|same
among Step_1b 2|among('at'(<+ 'e'))|another";
