//! The part of a script that somebody asks about.

ghost use Rattle.std.specs.Prelude.{◌≡◌, IfOk};
ghost use Rattle.std.specs.List.{list_any};
ghost use Rattle.std.specs.Option.{option_map};
ghost use Rattle.std.specs.Str.{bytes_eq};
ghost use Rattle.sbl_machine.specs.ItemRefs.{item_of_ref};
ghost use Rattle.sbl_script.specs.ParsedScript.{source_of};
ghost use Rattle.sbl_ast.specs.View.{view_row as view_body};
ghost use Rattle.sbl_uses.specs.UsableViews.{view_usable};
ghost use Rattle.sbl_uses.specs.UnusedViews.{texts_of};
ghost use Rattle.sbl_uses.specs.Uses as spec;
ghost use Rattle.sbl_uses.specs.Uses.{IsResult, question_of};

use crate::amongs::{amongs_of, strings_in};
use crate::usables::Usable;
use sbl_ast::{Plain, RowOfCommands};
use sbl_machine::ItemRef;
use sbl_script::Script;
use sbl_source_map::definition_of;
use std::alloc::{AllocError, Global};

/// A part of a script that somebody asks about.
#[derive(Clone, Copy, Debug)]
pub enum Question<'q> {
    /// The routine, external or grouping of this name.
    OfName(&'q str),
    /// The among of the routine or external of this name that has this number, counted from 1 in the order of the words `among`.
    OfAmong(&'q str, u64),
    /// The string of that among that has these characters.
    OfString(&'q str, u64, &'q [char]),
}

/// Why no words are named.
#[derive(Clone, Copy, Debug, PartialEq, Eq)]
pub enum UsesFault {
    /// The script defines nothing of this name or, for an among, no routine or external.
    NoRoutine,
    /// The routine has no among of this number.
    NoAmong,
    /// The among has no such string.
    NoString,
    /// An allocation failed.
    OutOfMemory,
}

impl From<AllocError> for UsesFault {
    ghost use Rattle.sbl_uses.specs.declared.uses.UsesFault.TheVariants.{OutOfMemory};

    ghost from_gives = { λ _ fault. fault ≡ OutOfMemory };

    fn from(_error: AllocError) -> UsesFault {
        UsesFault::OutOfMemory
    }
}

/// What is asked about, or why no words are named.
pub type Found<'q> = Result<Usable<'q>, UsesFault>;

/// Returns the name that is asked about.
fn name_in<'q>(question: &Question<'q>) -> &'q str
    ensures { result.now ≡ spec.name_in (question_of question.now) }
{
    match question {
        Question::OfName(name) | Question::OfAmong(name, _) | Question::OfString(name, _, _) =>
            name,
    }
}

/// Returns the strings of the among of a body with this number, counted from 1; `None` if there is none. Returns `AllocError` if an
/// allocation fails.
fn strings_at(
    alloc: Global,
    body: &RowOfCommands,
    number: u64,
) -> Result<Option<Vec<&[char]>>, AllocError>
    ensures { IfOk result (λ strings. option_map (λ v. texts_of v.items) strings ≡ spec.strings_at (view_body body.now) number) }
{
    let Some(index) = number.checked_sub(1) else {
        return Ok(None);
    };
    let amongs = amongs_of(alloc, body)?;
    match amongs.get(index as usize) {
        Some(among) => Ok(Some(strings_in(alloc, among)?)),
        None => Ok(None),
    }
}

/// Returns whether a string is one of some.
fn has_string(strings: &[&[char]], string: &[char]) -> bool
    ensures { result ≡ list_any (bytes_eq string.now) (texts_of strings.now) }
{
    for other in strings {
        if string == *other {
            return true;
        }
    }
    false
}

/// Returns the string of an among that is asked about, given the strings of the among.
fn entry_in<'q>(among: ItemRef<'q>, string: &'q [char], strings: Option<Vec<&[char]>>) -> Found<'q>
    ensures { IsResult view_usable result (spec.entry_in (item_of_ref among.entry) string.now (option_map (λ v. texts_of v.items) strings.entry)) }
{
    let Some(strings) = strings else {
        return Err(UsesFault::NoAmong);
    };
    if has_string(&strings, string) {
        Ok(Usable::Entry(among, string))
    } else {
        Err(UsesFault::NoString)
    }
}

/// Returns what is asked about, given the body of the routine of its name.
fn usable_in_routine<'q>(alloc: Global, body: &RowOfCommands, question: Question<'q>) -> Found<'q>
    ensures { IsResult view_usable result (spec.usable_in_body (view_body body.now) (question_of question.entry)) }
{
    match question {
        Question::OfName(name) => Ok(Usable::Whole(ItemRef::Routine(name))),
        Question::OfAmong(name, number) => match strings_at(alloc, body, number)? {
            Some(_) => Ok(Usable::Whole(ItemRef::Among(name, number))),
            None => Err(UsesFault::NoAmong),
        },
        Question::OfString(name, number, string) => entry_in(
            ItemRef::Among(name, number),
            string,
            strings_at(alloc, body, number)?,
        ),
    }
}

/// Returns what is asked about, if its name is that of a grouping.
fn usable_of_grouping<'q>(question: Question<'q>) -> Found<'q>
    ensures { IsResult view_usable result (spec.usable_of_terms (question_of question.entry)) }
{
    match question {
        Question::OfName(name) => Ok(Usable::Whole(ItemRef::Grouping(name))),
        Question::OfAmong(_, _) | Question::OfString(_, _, _) => Err(UsesFault::NoRoutine),
    }
}

/// Returns the part of a script that is asked about.
pub fn usable_for<'q>(alloc: Global, script: &Script, question: Question<'q>) -> Found<'q>
    ensures { IsResult view_usable result (spec.usable_for (source_of script.now) (question_of question.entry)) }
{
    match definition_of(script.items(), name_in(&question)) {
        Some(Plain::Routine { name: _, body }) => usable_in_routine(alloc, body, question),
        Some(Plain::Grouping(_)) => usable_of_grouping(question),
        _ => Err(UsesFault::NoRoutine),
    }
}
