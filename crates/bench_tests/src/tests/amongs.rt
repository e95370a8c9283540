//! Amongs, their searches and choices.

/// The longest string is taken; a string counts only if its condition signals t; each group has its command, and the last may have
/// none; what a condition changed before its f stays, and the next one begins in that state; backwards the place after the string keeps
/// its distance from the limit; an among without a substring searches itself; the starter runs after the string, before the group's
/// command; a choice lasts until the next search of that among in the same call, another call begins with none, and leaves those of its
/// caller; each among has its own, those inside others counted at their words.
pub(crate) const AMONGS: &str =
    "= externals ( stem ) define stem as ( [ among ( 'a' () 'ab' () ) ] delete )
abc||c|
= externals ( stem ) routines ( c ) define c as 'x' define stem as ( [ among ( 'a' () 'ab' c () ) ] delete )
abx||x|9;
aby||by|9;
ab||b|9;
b||b|4;
= externals ( stem ) routines ( c ) define c as ( ] delete ) define stem as ( [ among ( 'ab' c () ) )
abab||ab|
ab||!63 Cursor|
= externals ( stem ) define stem as among ( 'a' 'b' ( <+ '1' ) 'c' ( <+ '2' ) 'd' )
az||a1z|4;
bz||b1z|4;
cz||c2z|4;
dz||dz|2;
z||z|2;
= integers ( n ) externals ( stem ) routines ( c ) define c as ( $n += 1 $n == 2 )¶        define stem as among ( 'a' c ( <+ '1' ) 'ab' c ( <+ '2' ) 'abc' c ( <+ '3' ) )
abc||ab2c|
ab||a1b|
a||a|
= externals ( stem ) routines ( c ) define c as ( <+ 'x' false )¶        define stem as among ( 'a' ( <+ '1' ) 'ab' c ( <+ '2' ) )
ab||a1bx|
= externals ( stem ) routines ( c ) backwardmode ( define c as <+ 'x' )¶        define stem as backwards among ( 'c' c ( <+ '2' ) )
abc||abx2c|
= externals ( stem ) define stem as ( try substring among ( 'a' () ) )
b||b|4;
a||a|5;
= externals ( stem ) define stem as ( try substring among ( 'a' ) )
b||b|4;
a||a|4;
= externals ( stem ) define stem as among ( ( next ) 'a' () )
ab||ab|5;
a||a|4;
ab|1|!60 Steps|2;
= externals ( stem ) define stem as among ( ( <+ '1' ) 'a' ( <+ '2' ) )
ab||a12b|6;
= externals ( stem ) define stem as ( substring loop 2 among ( 'a' ( <+ 'x' ) ) )
ab||axxb|9;
= externals ( stem ) define stem as ( loop 2 ( try substring among ( 'a' ( <+ 'x' ) ) ) )
ab||axb|
= externals ( stem ) routines ( r )¶        define r as ( try ( test 'a' substring ) among ( 'a' ( <+ 'x' ) ) )¶        define stem as ( r r )
ab||axb|
= externals ( stem ) routines ( q ) define q as try among ( 'z' () )¶        define stem as ( substring q among ( 'a' ( <+ 'x' ) ) )
ab||axb|
= externals ( stem ) define stem as ( substring among ( 'a' ( among ( 'b' ( <+ '1' ) 'c' ( <+ '2' ) ) ) 'd' ( <+ '3' ) ) among ( 'e' ( <+ '4' ) ) )
abe||ab1e4|
ace||ac2e4|
de||d3e4|";
