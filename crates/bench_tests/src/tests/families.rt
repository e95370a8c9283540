//! Families over rows.

use crate::tests::row_lists::{lists_in, rows_in, shown_records, view, view_lists};
use sbl_rows::families;
use std::alloc::Global;
use std::test::Fail;

/// The rows about these families.
pub(crate) fn families_of(alloc: Global, rows: &str, lists: &str) -> Result<String, Fail> {
    let rows = rows_in(alloc, rows)?;
    let rows = view(alloc, &rows)?;
    let lists = lists_in(alloc, lists)?;
    let lists = view_lists(alloc, &lists)?;
    shown_records(alloc, &families(alloc, &rows, &lists)?)
}

/// What is tried, the rows, the families, and the rows about them.
pub(crate) const FAMILIES: &str = "no families|a=x||pairs,0,0,0,0;unknown,0;
a family has two stems|a=x b=x c=y|a b c|under,a,x,y;pairs,3,2,0,0;unknown,0;
an empty family is left out|a=x b=y c=y|a / / b c|pairs,1,0,2,0;unknown,0;
two families share a stem|a=x b=x c=x d=x|a b / c d|over,x,a,c;pairs,2,0,4,4;unknown,0;
three words and two share a stem|a=x b=x c=x d=x e=x|a b c / d e|over,x,a,d;pairs,4,0,6,6;unknown,0;
a word without a row and a repeated word are left out|a=x|a n a|pairs,0,0,0,0;unknown,1;
unknown words count once, in whichever family|a=x|n m a / n m n|pairs,0,0,0,0;unknown,2;
a word counts in its first family|a=x b=x c=y|a b / b c|pairs,1,0,2,0;unknown,0;
a refused word is left out|r!Steps a=y b=x|r a b|under,a,x,y;pairs,1,1,0,0;unknown,0;
a refused word is known|r!Steps|r r|pairs,0,0,0,0;unknown,0;
words of a shared stem are in the order of the families|a=x b=x c=x|c / b / a|over,x,c,b,a;pairs,0,0,3,3;unknown,0;
a shared stem has the first word with it|a=x b=y c=x d=x|b a / d c|under,b,x,y;over,x,a,d;pairs,2,1,4,2;unknown,0;
families are in order and shared stems too|a=x b=z c=z d=x|c d / a b|under,c,x,z;under,a,x,z;over,x,d,a;over,z,c,b;pairs,2,2,4,2;unknown,0;
ten words|baea=ba baeabaa=baea baeab=baeab aea=a abb=abb abebe=ab abbe=ab aab=aab aabe=aa aabaa=aa|/ aab baeabaa aabaa abebe / / aabe abb aea baea baeab abbe / abbe|under,aab,aa,aab,ab,baea;under,aabe,a,aa,ab,abb,ba,baeab;over,aa,aabaa,aabe;over,ab,abebe,abbe;pairs,21,21,24,2;unknown,0;";
