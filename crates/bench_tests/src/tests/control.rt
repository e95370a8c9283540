//! Loops and calls: what they pay, and the limit that a run is given. More rows are in tests/cases.

/// Loops run their turns; after those that `atleast` asks for, turns pay no step of their own; the 33rd level of calls refuses the run,
/// and 31 calls one in the other are none too many; a step is paid before anything else.
pub(crate) const CONTROL: &str = "= externals ( stem ) define stem as repeat true
a||!60 Steps|100001;
= externals ( stem ) define stem as loop 2147483647 true
a||!60 Steps|100001;
= externals ( stem ) define stem as loop 2 next
ab||ab|3;
a||a|3;
ab|3|ab|3;
ab|2|!60 Steps|3;
= externals ( stem ) define stem as loop -1 next
ab||ab|1;
= externals ( stem ) define stem as ( atleast 3 next <+ 'x' )
ab||ab|5;
= externals ( stem ) define stem as atleast 1 next
ab||ab|4;
= externals ( stem ) define stem as stem
a||!61 Depth|32;
= externals ( stem ) define stem as among ( '' stem () )
a||!61 Depth|96;
= integers ( n ) externals ( stem ) define stem as ( $n += 1 ( $n == 32 [ tolimit ] delete ) or stem )
ab|||
= integers ( n ) externals ( stem ) define stem as ( $n += 1 ( $n == 33 [ tolimit ] delete ) or stem )
ab||!61 Depth|
= integers ( x ) externals ( stem ) define stem as $x = 1 / 0
a|0|!60 Steps|1;
a|1|!65 Divide|1;";
