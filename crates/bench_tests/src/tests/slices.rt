//! Slices, and a whole script. More rows are in tests/cases.

/// A slice that was set forwards is used backwards; it may not go past the limit; a cursor in the slice goes to its beginning, one
/// after it moves with the text.
pub(crate) const SLICES: &str = "= externals ( stem ) define stem as ( next ] tolimit [ delete )
ab||!62 Slice|6;
a||a|6;
= strings ( s ) externals ( stem ) define stem as ( [ next ] -> s tolimit insert s )
ab||aba|7;
= externals ( stem ) define stem as ( [ next ] backwards delete )
ab||b|6;
= externals ( stem ) define stem as ( test ( [ tolimit ] ) setlimit next for delete )
ab||!62 Slice|
= externals ( stem ) define stem as ( test ( [ tolimit ] ) hop 2 <- 'xy' <+ '.' )
abc||.xy|
= externals ( stem ) define stem as ( [ next ] next <- 'xyz' <+ '.' )
abc||xyzb.c|
= externals ( stem ) define stem as ( [ next ] <- 'x' <- 'yz' )
abc||yzbc|";

/// A whole script, with the steps that its runs pay.
pub(crate) const STEMS: &str = "= PLURALS
boxes||box|
cakes||cak|
cake||cak|
cats||cat|
s|||16;
dog||dog|12;
s|16||16;
s|15|!60 Steps|16;
s|12|!60 Steps|13;
dog|12|dog|12;
s|11|!60 Steps|12;
dog|11|!60 Steps|12;";
