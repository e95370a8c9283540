//! Classes that are split, merged and renamed.

ghost use Rattle.std.specs.Prelude.{◌≡◌, ◌++◌, ◌&&◌, ◌||◌, ℕ, List, IfOk, OnOk, bytes_eq, filter_map, option_map};
ghost use Rattle.sbl_rows.specs.Changes as spec;
ghost use Rattle.sbl_rows.specs.Changes.{class_renaming};
ghost use Rattle.sbl_rows.specs.Classes.{Class};
ghost use Rattle.sbl_rows.specs.Sides as sides;
ghost use Rattle.sbl_rows.specs.Views.{has_text, view_change, view_changes, view_stem_class, view_stem_classes};

use crate::change::{ChangeRow, Side};
use crate::lists::push_some;
use crate::stem_class::StemClass;
use std::alloc::{AllocError, Global};
use std::collections::BTreeSet;

/// Returns that the class of one list is split or merged, if its words have two stems or more in the other list. Returns `AllocError`
/// if an allocation fails.
fn several<'a>(
    alloc: Global,
    side: Side,
    class: &StemClass<'a>,
) -> Result<Option<ChangeRow<'a>>, AllocError>
    ensures { IfOk result (λ change. option_map view_change change ≡ sides.several side (view_stem_class class.now) (view_stem_class class.now).members) }
{
    if class.members.len() < 2 {
        return Ok(None);
    }
    let class = StemClass {
        stem: class.stem,
        members: Vec::from_slice(alloc, class.members.as_slice())?,
    };
    Ok(Some(match side {
        Side::First => ChangeRow::Split(class),
        Side::Second => ChangeRow::Merged(class),
    }))
}

/// Returns that the class is renamed, if all its words have one stem, another one, that the words of no other class have. The set
/// has the stems of the second list whose words have one stem in the first.
fn class_renaming<'a>(
    from_one: &BTreeSet<&'a [char]>,
    class: &StemClass<'a>,
) -> Option<ChangeRow<'a>>
    ensures { (now : List Class) → ((stem : List ℕ) → has_text from_one.now stem ≡ spec.is_from_one now stem) → option_map view_change result ≡ sides.renaming now (view_stem_class class.now) }
{
    match class.members.as_slice() {
        [new] if class.stem != *new && from_one.contains(*new) => {
            Some(ChangeRow::Renamed {
                from: class.stem,
                to: *new,
            })
        }
        _ => None,
    }
}

/// Appends the classes of one list whose words have two stems or more in the other: they are split if it is the first list, and
/// merged if it is the second. Returns `AllocError` if an allocation fails.
pub(crate) fn push_several<'a>(
    alloc: Global,
    changes: &mut Vec<ChangeRow<'a>>,
    side: Side,
    classes: &[StemClass<'a>],
) -> Result<(), AllocError>
    ensures { OnOk result (view_changes changes.new.items ≡ view_changes changes.old.items ++ filter_map (λ c. sides.several side c c.members) (view_stem_classes classes.now)) }
{
    for class in classes {
        push_some(changes, several(alloc, side, class)?)?;
    }
    Ok(())
}

/// Returns the stems of the classes that have one other stem. Returns `AllocError` if an allocation fails.
fn stems_from_one<'a>(
    alloc: Global,
    classes: &[StemClass<'a>],
) -> Result<BTreeSet<&'a [char]>, AllocError>
    ensures { IfOk result (λ stems. has_text stems ≡ spec.is_from_one (view_stem_classes classes.now)) }
{
    let mut stems = BTreeSet::new(alloc);
    for class in classes {
        insert_if_one(&mut stems, class)?;
    }
    Ok(stems)
}

/// Inserts the stem of the class, if the class has one other stem. Returns `AllocError` if an allocation fails.
fn insert_if_one<'a>(
    stems: &mut BTreeSet<&'a [char]>,
    class: &StemClass<'a>,
) -> Result<(), AllocError>
    ensures { OnOk result ((q : List ℕ) → has_text stems.new q ≡ ((bytes_eq (view_stem_class class.now).stem q && spec.is_one (view_stem_class class.now).members) || has_text stems.old q)) }
{
    if class.members.len() == 1 {
        stems.insert(class.stem)?;
    }
    Ok(())
}

/// Appends the renamed classes. Returns `AllocError` if an allocation fails.
pub(crate) fn push_renamed<'a>(
    alloc: Global,
    changes: &mut Vec<ChangeRow<'a>>,
    before: &[StemClass<'a>],
    now: &[StemClass<'a>],
) -> Result<(), AllocError>
    ensures { OnOk result (view_changes changes.new.items ≡ view_changes changes.old.items ++ filter_map (λ c. class_renaming (view_stem_classes now.now) c c.members) (view_stem_classes before.now)) }
{
    let from_one = stems_from_one(alloc, now)?;
    for class in before {
        push_some(changes, class_renaming(&from_one, class))?;
    }
    Ok(())
}
