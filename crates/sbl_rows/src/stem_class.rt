//! Classes: stems, each with its members.

ghost use Rattle.std.specs.Prelude.{◌≡◌, ◌++◌, ◌∷◌, [], map, OnOk, IfOk};
ghost use Rattle.sbl_rows.specs.Classes as classes;
ghost use Rattle.sbl_rows.specs.Grouping as spec;
ghost use Rattle.sbl_rows.specs.Grouping.{plain_pair};
ghost use Rattle.sbl_rows.specs.Views.{texts_of, view_stem_class, view_stem_classes, view_pairs};

use std::alloc::{AllocError, Global};
use std::collections::BTreeSet;

/// A stem and a member of its class.
#[derive(Clone, Copy, Debug)]
pub(crate) struct StemPair<'a> {
    pub(crate) stem: &'a [char],
    pub(crate) member: &'a [char],
}

/// A stem with its members: the words that have it or, in a change, the stems that these words have in the other list. They are in
/// code point order, a prefix first.
#[derive(Debug, Drop)]
pub struct StemClass<'a> {
    /// The stem.
    pub stem: &'a [char],
    /// The members; there is at least one.
    pub members: Vec<&'a [char]>,
}

/// Returns the pairs in order, each once. Returns `AllocError` if an allocation fails.
fn sorted_pairs<'a>(
    alloc: Global,
    pairs: &[StemPair<'a>],
) -> Result<BTreeSet<(&'a [char], &'a [char])>, AllocError>
    ensures { IfOk result (λ set. map plain_pair set.keys ≡ spec.pairs_in_order (view_pairs pairs.now)) }
{
    let mut set = BTreeSet::new(alloc);
    for pair in pairs {
        set.insert((pair.stem, pair.member))?;
    }
    Ok(set)
}

/// Returns the classes of the pairs, stems and members, in code point order; a prefix comes first. Returns `AllocError` if an
/// allocation fails.
pub(crate) fn classes_of<'a>(
    alloc: Global,
    pairs: &[StemPair<'a>],
) -> Result<Vec<StemClass<'a>>, AllocError>
    ensures { IfOk result (λ found. view_stem_classes found.items ≡ classes.pair_classes (view_pairs pairs.now)) }
{
    let set = sorted_pairs(alloc, pairs)?;
    let mut classes = Vec::new(alloc);
    for pair in set.iter() {
        put_last(alloc, &mut classes, pair.0, pair.1)?;
    }
    Ok(classes)
}

/// Returns whether the last class has this stem. Does not allocate.
fn is_last(stem: &[char], classes: &[StemClass<'_>]) -> bool
    ensures { result ≡ spec.is_last stem.now (view_stem_classes classes.now) }
{
    match classes.last() {
        Some(class) => class.stem == stem,
        None => false,
    }
}

/// Appends a member to the last class. Returns `AllocError` if an allocation fails.
fn put_in_last<'a>(classes: &mut Vec<StemClass<'a>>, member: &'a [char]) -> Result<(), AllocError>
    ensures { OnOk result (view_stem_classes classes.new.items ≡ spec.put_in_last (view_stem_classes classes.old.items) member.now) }
{
    match classes.last_mut() {
        Some(class) => push_text(&mut class.members, member),
        None => Ok(()),
    }
}

/// Appends a text. Returns `AllocError` if an allocation fails.
fn push_text<'a>(texts: &mut Vec<&'a [char]>, text: &'a [char]) -> Result<(), AllocError>
    ensures { OnOk result (texts_of texts.new.items ≡ texts_of texts.old.items ++ text.now ∷ []) }
{
    texts.push(text).map_err(|_| AllocError)
}

/// Returns a class of one member. Returns `AllocError` if an allocation fails.
fn one_member<'a>(
    alloc: Global,
    stem: &'a [char],
    member: &'a [char],
) -> Result<StemClass<'a>, AllocError>
    ensures { IfOk result (λ class. view_stem_class class ≡ spec.one_member (stem.now, member.now)) }
{
    let mut members = Vec::new(alloc);
    push_text(&mut members, member)?;
    Ok(StemClass { stem, members })
}

/// Appends the member to the last class, if that class has this stem, and otherwise appends a new class with it. Returns
/// `AllocError` if an allocation fails.
pub(crate) fn put_last<'a>(
    alloc: Global,
    classes: &mut Vec<StemClass<'a>>,
    stem: &'a [char],
    member: &'a [char],
) -> Result<(), AllocError>
    ensures { OnOk result (view_stem_classes classes.new.items ≡ spec.put_last (view_stem_classes classes.old.items) (stem.now, member.now)) }
{
    if is_last(stem, classes) {
        return put_in_last(classes, member);
    }
    let class = one_member(alloc, stem, member)?;
    classes.push(class).map_err(|_| AllocError)
}
