//! Families whose words have several stems, and stems that several families have.

ghost use Rattle.std.specs.Prelude.{◌≡◌, ◌++◌, ◌||◌, ◌∷◌, [], ℕ, List, map, false, OnOk, IfOk, bytes_eq, filter_map, if◌then◌else◌, option_map};
ghost use Rattle.sbl_rows.specs.Classes.{members_of};
ghost use Rattle.sbl_rows.specs.Families as spec;
ghost use Rattle.sbl_rows.specs.Counting.{DoNotFall, firsts, heads};
ghost use Rattle.sbl_rows.specs.Grouping.{classes_sorted, put_pairs};
ghost use Rattle.sbl_rows.specs.Views.{has_text, texts_of, view_stem_class, view_stem_classes, view_families, view_pair, view_pairs, view_result, view_results};

use crate::family_report::FamilyRow;
use crate::lists::push_some;
use crate::stem_class::{StemClass, StemPair, classes_of, put_last};
use std::alloc::{AllocError, Global};
use std::collections::BTreeSet;

/// Returns the stems in code point order, each once. Returns `AllocError` if an allocation fails.
fn stems_of<'a>(alloc: Global, pairs: &[StemPair<'a>]) -> Result<Vec<&'a [char]>, AllocError>
    ensures { IfOk result (λ stems. texts_of stems.items ≡ spec.stems_of (view_pairs pairs.now)) }
{
    let classes = classes_of(alloc, pairs)?;
    class_stems(alloc, &classes)
}

/// Returns the stems of the classes. Returns `AllocError` if an allocation fails.
fn class_stems<'a>(alloc: Global, classes: &[StemClass<'a>]) -> Result<Vec<&'a [char]>, AllocError>
    ensures { IfOk result (λ stems. texts_of stems.items ≡ map (λ c. c.stem) (view_stem_classes classes.now)) }
{
    let mut stems = Vec::new(alloc);
    for class in classes {
        stems.push(class.stem)?;
    }
    Ok(stems)
}

/// Returns the family's first word and stems, if it has two stems or more. Returns `AllocError` if an allocation fails.
fn under<'a>(alloc: Global, family: &[StemPair<'a>]) -> Result<Option<FamilyRow<'a>>, AllocError>
    ensures { IfOk result (λ row. option_map view_result row ≡ spec.under (view_pairs family.now)) }
{
    let Some(first) = family.first() else {
        return Ok(None);
    };
    let stems = stems_of(alloc, family)?;
    if stems.len() < 2 {
        return Ok(None);
    }
    Ok(Some(FamilyRow::Under {
        word: first.member,
        stems,
    }))
}

/// Appends the families whose words have two stems or more. Returns `AllocError` if an allocation fails.
pub(crate) fn push_under<'a>(
    alloc: Global,
    rows: &mut Vec<FamilyRow<'a>>,
    families: &[Vec<StemPair<'a>>],
) -> Result<(), AllocError>
    ensures { OnOk result (view_results rows.new.items ≡ view_results rows.old.items ++ filter_map spec.under (view_families families.now)) }
{
    for family in families {
        push_some(rows, under(alloc, family)?)?;
    }
    Ok(())
}

/// Appends the pair, if its stem is not in the set, and inserts the stem. Returns `AllocError` if an allocation fails.
fn push_new<'a>(
    pairs: &mut Vec<StemPair<'a>>,
    seen: &mut BTreeSet<&'a [char]>,
    pair: &StemPair<'a>,
) -> Result<(), AllocError>
    ensures pairs { OnOk result (view_pairs pairs.new.items ≡ view_pairs pairs.old.items ++ (if has_text seen.old pair.now.stem.now then [] else view_pair pair.now ∷ [])) }
    ensures seen { OnOk result ((q : List ℕ) → has_text seen.new q ≡ (bytes_eq pair.now.stem.now q || has_text seen.old q)) }
{
    if seen.insert(pair.stem)? {
        pairs.push(*pair)?;
    }
    Ok(())
}

/// Appends the first word with each stem, and the stem. Returns `AllocError` if an allocation fails.
fn push_firsts<'a>(
    alloc: Global,
    pairs: &mut Vec<StemPair<'a>>,
    family: &[StemPair<'a>],
) -> Result<(), AllocError>
    ensures { OnOk result (view_pairs pairs.new.items ≡ view_pairs pairs.old.items ++ firsts (λ q. false) (view_pairs family.now)) }
{
    let mut seen = BTreeSet::new(alloc);
    for pair in family {
        push_new(pairs, &mut seen, pair)?;
    }
    Ok(())
}

/// Returns of each family the first word with each stem, and the stem. Returns `AllocError` if an allocation fails.
fn heads_of<'a>(
    alloc: Global,
    families: &[Vec<StemPair<'a>>],
) -> Result<Vec<StemPair<'a>>, AllocError>
    ensures { IfOk result (λ pairs. view_pairs pairs.items ≡ heads (view_families families.now)) }
{
    let mut pairs = Vec::new(alloc);
    for family in families {
        push_firsts(alloc, &mut pairs, family)?;
    }
    Ok(pairs)
}

/// Returns the classes of the pairs, in code point order of their stems, each with its members in the order of the pairs. Returns
/// `AllocError` if an allocation fails.
fn classes_in_turn<'a>(
    alloc: Global,
    pairs: Vec<StemPair<'a>>,
) -> Result<Vec<StemClass<'a>>, AllocError>
    ensures { IfOk result (λ classes. view_stem_classes classes.items ≡ classes_sorted (view_pairs pairs.entry.items)) }
{
    let pairs = by_stem(pairs)?;
    group_pairs(alloc, &pairs)
}

/// Returns the classes of the pairs, put one after another. Returns `AllocError` if an allocation fails.
fn group_pairs<'a>(alloc: Global, pairs: &[StemPair<'a>]) -> Result<Vec<StemClass<'a>>, AllocError>
    ensures { IfOk result (λ classes. view_stem_classes classes.items ≡ put_pairs [] (view_pairs pairs.now)) }
{
    let mut classes = Vec::new(alloc);
    for pair in pairs {
        put_last(alloc, &mut classes, pair.stem, pair.member)?;
    }
    Ok(classes)
}

/// Returns the pairs in code point order of their stems; those of one stem stay in order. Returns `AllocError` if an allocation
/// fails.
fn by_stem<'a>(mut pairs: Vec<StemPair<'a>>) -> Result<Vec<StemPair<'a>>, AllocError>
    ensures rise { IfOk result (λ found. DoNotFall (view_pairs found.items)) }
    ensures members { IfOk result (λ found. (stem : List ℕ) → members_of stem (view_pairs found.items) ≡ members_of stem (view_pairs pairs.entry.items)) }
{
    pairs.sort_by_key(|pair| pair.stem)?;
    Ok(pairs)
}

/// Returns the stem and the words, if there are two or more. Returns `AllocError` if an allocation fails.
fn over<'a>(alloc: Global, class: &StemClass<'a>) -> Result<Option<FamilyRow<'a>>, AllocError>
    ensures { IfOk result (λ row. option_map view_result row ≡ spec.over (view_stem_class class.now).stem (view_stem_class class.now).members) }
{
    if class.members.len() < 2 {
        return Ok(None);
    }
    Ok(Some(FamilyRow::Over(StemClass {
        stem: class.stem,
        members: Vec::from_slice(alloc, class.members.as_slice())?,
    })))
}

/// Appends the classes of two members or more. Returns `AllocError` if an allocation fails.
fn push_classes<'a>(
    alloc: Global,
    rows: &mut Vec<FamilyRow<'a>>,
    classes: &[StemClass<'a>],
) -> Result<(), AllocError>
    ensures { OnOk result (view_results rows.new.items ≡ view_results rows.old.items ++ filter_map (λ c. spec.over c.stem c.members) (view_stem_classes classes.now)) }
{
    for class in classes {
        push_some(rows, over(alloc, class)?)?;
    }
    Ok(())
}

/// Appends the stems that words of two families or more have. Returns `AllocError` if an allocation fails.
pub(crate) fn push_over<'a>(
    alloc: Global,
    rows: &mut Vec<FamilyRow<'a>>,
    families: &[Vec<StemPair<'a>>],
) -> Result<(), AllocError>
    ensures { OnOk result (view_results rows.new.items ≡ view_results rows.old.items ++ spec.over_rows (view_families families.now)) }
{
    let heads = heads_of(alloc, families)?;
    let classes = classes_in_turn(alloc, heads)?;
    push_classes(alloc, rows, &classes)
}
