//! The checks of a script beyond its grammar.

ghost use Rattle.std.specs.Prelude.{◌≡◌, ℕ, ◌∷◌, [], ◌++◌, List, not, is_some, ◌||◌, ◌+◌, ◌<◌, length, drop, nat_eq, ◌&&◌, ◌⊎◌, IfOk, IfErr, OnOk, MatchOption, if◌then◌else◌, Some, None, ◌==◌};
ghost use Rattle.sbl_resolver.specs.Checks as spec;
ghost use Rattle.sbl_resolver.specs.inside.CheckParts as parts;
ghost use Rattle.sbl_resolver.specs.Occurrences.{Occurrence as PlainOccurrence, occurrences_of as spec_occurrences};
ghost use Rattle.sbl_resolver.specs.OccurrenceView.{view_notice, view_occurrence, view_occurrences};
ghost use Rattle.sbl_resolver.specs.Laws.{EachPasses};
ghost use Rattle.sbl_resolver.specs.Subjects.{subject_of, IsFirstAfter};
ghost use Rattle.sbl_resolver.specs.FirstFault.{first_from, one_more};
ghost use Rattle.sbl_resolver.specs.MetNames.{at_name, has_string, HasPlaces, HasMet, Notes, Finds, may_define_as};
ghost use Rattle.std.specs.Option.{option_or};
ghost use Rattle.sbl_ast.specs.View.{view_items};
ghost use Rattle.std.specs.Str.{bytes_eq};

use crate::bodies::body_in;
use crate::noting::occurrences_of;
use crate::occurrences::{Notice, Occurrence, Site, Use};
use sbl_ast::{DeclarationKind, Mode, RowOfCommands, ScriptItem};
use sbl_text::ScriptFault;
use std::alloc::{AllocError, Global};
use std::collections::{BTreeMap, BTreeSet};

fn is_routine(kind: DeclarationKind) -> bool
    ensures { result ≡ spec.is_routine kind }
{
    kind == DeclarationKind::Routines || kind == DeclarationKind::Externals
}

fn is_grouping(kind: DeclarationKind) -> bool
    ensures { result ≡ spec.is_grouping kind }
{
    kind == DeclarationKind::Groupings
}

/// Returns whether a name of this kind is allowed in this use.
fn may_be(how: Use, kind: DeclarationKind) -> bool
    ensures { result ≡ spec.may_be how kind }
{
    match how {
        Use::Command => kind != DeclarationKind::Integers,
        Use::Condition => is_routine(kind),
        Use::Excluded | Use::Term => is_grouping(kind),
        Use::Boolean => kind == DeclarationKind::Booleans,
        Use::Integer => kind == DeclarationKind::Integers,
        Use::String => kind == DeclarationKind::Strings,
    }
}

/// Returns whether there is a definition in an earlier item.
fn is_earlier(item: usize, definition: Option<Site>) -> bool
    ensures { result ≡ spec.is_earlier item definition }
{
    match definition {
        None => false,
        Some(site) => site.item < item,
    }
}

/// Returns whether there is a definition in the other mode.
fn is_in_other(mode: Mode, definition: Option<Site>) -> bool
    ensures { result ≡ parts.is_in_other mode definition }
{
    match definition {
        None => false,
        Some(site) => mode != site.mode,
    }
}

/// Returns whether a name that is used has no definition.
fn lacks_definition(how: Use, item: usize, kind: DeclarationKind, definition: Option<Site>) -> bool
    ensures { result ≡ spec.lacks_definition how item (Some kind) definition }
{
    match how {
        Use::Term => !is_earlier(item, definition),
        _ => (is_routine(kind) || is_grouping(kind)) && definition.is_none(),
    }
}

/// Returns whether a name of this kind can be defined as a grouping or as a routine.
fn may_define(wants_grouping: bool, kind: DeclarationKind) -> bool
    ensures { result ≡ may_define_as wants_grouping kind }
{
    if wants_grouping {
        is_grouping(kind)
    } else {
        is_routine(kind)
    }
}

/// Returns the fault of a name in a definition, given its declared kind and its first definition.
fn fault_of_definition(
    item: usize,
    wants_grouping: bool,
    kind: Option<DeclarationKind>,
    definition: Option<Site>,
) -> Option<ScriptFault>
    ensures { result ≡ spec.fault_of_definition item (may_define_as wants_grouping) kind definition }
{
    let Some(kind) = kind else {
        return Some(ScriptFault::Undeclared { item });
    };
    if !may_define(wants_grouping, kind) {
        return Some(ScriptFault::WrongKind { item });
    }
    if is_earlier(item, definition) {
        return Some(ScriptFault::DefinedTwice { item });
    }
    None
}

/// Returns the fault of the use of a name, given its declared kind and its first definition.
fn fault_of_use(
    site: Site,
    how: Use,
    kind: Option<DeclarationKind>,
    definition: Option<Site>,
) -> Option<ScriptFault>
    ensures { result ≡ spec.fault_of_use site how kind definition }
{
    let item = site.item;
    let Some(kind) = kind else {
        return Some(ScriptFault::Undeclared { item });
    };
    if !may_be(how, kind) {
        return Some(ScriptFault::WrongKind { item });
    }
    if lacks_definition(how, item, kind, definition) {
        return Some(ScriptFault::Undefined { item });
    }
    if is_routine(kind) && is_in_other(site.mode, definition) {
        return Some(ScriptFault::WrongMode { item });
    }
    None
}

/// Returns the fault if the condition holds.
fn fault_if(condition: bool, fault: ScriptFault) -> Option<ScriptFault>
    ensures { result ≡ (if condition then Some fault else None) }
{
    if condition { Some(fault) } else { None }
}

/// Returns the fault of an among.
fn fault_of_among(item: usize, is_started_twice: bool, is_empty: bool) -> Option<ScriptFault>
    ensures { result ≡ (if is_started_twice then Some (ScriptFault.Starter item) else if is_empty then Some (ScriptFault.EmptyAmong item) else None) }
{
    if is_started_twice {
        return Some(ScriptFault::Starter { item });
    }
    fault_if(is_empty, ScriptFault::EmptyAmong { item })
}

/// Returns whether the first among, substring or end of a region is an among of this mode.
fn is_followed(mode: Mode, occurrences: &[Occurrence]) -> bool
    ensures { result ≡ spec.is_followed mode (view_occurrences occurrences.now) }
{
    for occurrence in occurrences {
        match occurrence.notice {
            Notice::Among {
                has_starter: _,
                is_empty: _,
            } => return mode == occurrence.site.mode,
            Notice::Substring | Notice::RegionEnd => return false,
            _ => {}
        }
    }
    false
}

/// What the checks remember of the occurrences so far.
#[derive(Drop)]
pub struct CheckState<'a> {
    /// The kind that each name is declared as.
    pub kinds: BTreeMap<&'a str, DeclarationKind>,
    /// The strings of each among, with the number of its item and the number of the among in the item.
    pub strings: BTreeSet<(usize, usize, &'a [char])>,
    /// Whether a `substring` is still without its `among`.
    pub waits: bool,
}

pub(crate) fn kind_of(met: &CheckState, name: &str) -> Option<DeclarationKind>
    ensures { result ≡ at_name met.now.kinds name.now }
{
    met.kinds.get(name).copied()
}

fn definition_of(sites: &BTreeMap<&str, Site>, name: &str) -> Option<Site>
    ensures { result ≡ at_name sites.now name.now }
{
    sites.get(name).copied()
}

/// Returns the fault of an occurrence, given the occurrences after it, the first definition of each name, and what the
/// checks remember of the occurrences before it.
pub(crate) fn fault_at<'a>(
    occurrence: &Occurrence<'a>,
    after: &[Occurrence<'a>],
    sites: &BTreeMap<&'a str, Site>,
    met: &CheckState<'a>,
) -> Option<ScriptFault>
    ensures { (os before : List PlainOccurrence) → HasPlaces sites.now os → HasMet met.now before → result ≡ spec.fault_at os before (view_occurrence occurrence.now) (view_occurrences after.now) }
{
    let site = occurrence.site;
    let item = site.item;
    match occurrence.notice {
        Notice::Declares(_, name) => fault_if(
            met.kinds.contains_key(name),
            ScriptFault::DeclaredTwice { item },
        ),
        Notice::DefinesRoutine(name) => fault_of_definition(
            item,
            false,
            kind_of(met, name),
            definition_of(sites, name),
        ),
        Notice::DefinesGrouping(name) => fault_of_definition(
            item,
            true,
            kind_of(met, name),
            definition_of(sites, name),
        ),
        Notice::Uses(how, name) => fault_of_use(
            site,
            how,
            kind_of(met, name),
            definition_of(sites, name),
        ),
        Notice::Substring => fault_if(
            !is_followed(site.mode, after),
            ScriptFault::Substring { item },
        ),
        Notice::Among {
            has_starter,
            is_empty,
        } => fault_of_among(item, has_starter && met.waits, is_empty),
        Notice::String(among, text) => fault_if(
            met.strings.contains(&(item, among, text)),
            ScriptFault::RepeatedString { item },
        ),
        Notice::Backwards => fault_if(
            site.mode == Mode::Backward,
            ScriptFault::NestedBackwards { item },
        ),
        Notice::RegionEnd => None,
    }
}

/// Inserts a value for a name, unless the name has one already. Returns `AllocError` if an allocation fails.
fn keep_first<'a, T: Copy>(
    map: &mut BTreeMap<&'a str, T>,
    name: &'a str,
    value: T,
) -> Result<(), AllocError>
    ensures { OnOk result ((n : List ℕ) → at_name map.new n ≡ option_or (at_name map.old n) (if bytes_eq n name.now then Some value else None)) }
{
    if !map.contains_key(name) {
        map.insert(name, value)?;
    }
    Ok(())
}

/// Inserts a string of an among of an item. Returns `AllocError` if an allocation fails.
fn keep_string<'a>(
    strings: &mut BTreeSet<(usize, usize, &'a [char])>,
    item: usize,
    among: usize,
    text: &'a [char],
) -> Result<(), AllocError>
    ensures { OnOk result ((i k : ℕ) (t : List ℕ) → has_string strings.new i k t ≡ (has_string strings.old i k t || ((nat_eq k among && bytes_eq t text.now) && nat_eq i item))) }
{
    strings.insert((item, among, text))?;
    Ok(())
}

/// Updates what the checks remember after an occurrence. Returns `AllocError` if an allocation fails.
pub(crate) fn note<'a>(
    occurrence: &Occurrence<'a>,
    met: &mut CheckState<'a>,
) -> Result<(), AllocError>
    ensures { OnOk result (Notes met.old met.new (view_occurrence occurrence.now)) }
{
    match occurrence.notice {
        Notice::Declares(kind, name) => keep_first(&mut met.kinds, name, kind)?,
        Notice::String(among, text) => keep_string(
            &mut met.strings,
            occurrence.site.item,
            among,
            text,
        )?,
        Notice::Substring => met.waits = true,
        Notice::RegionEnd => met.waits = false,
        Notice::Among {
            has_starter: _,
            is_empty: _,
        } => met.waits = false,
        _ => {}
    }
    Ok(())
}

/// Records the site of a definition, if the occurrence is the first one of its name. Returns `AllocError` if an
/// allocation fails.
fn note_definition<'a>(
    occurrence: &Occurrence<'a>,
    sites: &mut BTreeMap<&'a str, Site>,
) -> Result<(), AllocError>
    ensures { OnOk result ((n : List ℕ) → at_name sites.new n ≡ option_or (at_name sites.old n) (spec.defined_at n (view_occurrence occurrence.now))) }
{
    match occurrence.notice {
        Notice::DefinesRoutine(name) | Notice::DefinesGrouping(name) => keep_first(
            sites,
            name,
            occurrence.site,
        ),
        _ => Ok(()),
    }
}

/// Returns the site of the first definition of each name. Returns `AllocError` if an allocation fails.
pub(crate) fn sites_of<'a>(
    alloc: Global,
    occurrences: &[Occurrence<'a>],
) -> Result<BTreeMap<&'a str, Site>, AllocError>
    ensures { IfOk result (λ sites. HasPlaces sites (view_occurrences occurrences.now)) }
{
    let mut sites = BTreeMap::new(alloc);
    for occurrence in occurrences {
        note_definition(occurrence, &mut sites)?;
    }
    Ok(sites)
}

/// Returns the state before the first occurrence.
pub(crate) fn met_nothing<'a>(alloc: Global) -> CheckState<'a>
    ensures { HasMet result [] }
{
    CheckState {
        kinds: BTreeMap::new(alloc),
        strings: BTreeSet::new(alloc),
        waits: false,
    }
}

/// Returns the occurrences after the one at `index`.
pub(crate) fn following<'a, 'b>(
    occurrences: &'b [Occurrence<'a>],
    index: usize,
) -> &'b [Occurrence<'a>]
    requires { index < length occurrences.now }
    ensures { result.now ≡ drop (index + 1) occurrences.now }
{
    &occurrences[index + 1..]
}

/// Returns the number of tokens that the checks have looked at after this one, given the number before it. There is no
/// token at the end of a region.
pub(crate) fn number_after(notice: Notice<'_>, number: usize) -> usize
    requires { number < 18446744073709551615 }
    ensures { result ≡ one_more (subject_of (view_notice notice.entry)) number }
{
    match notice {
        Notice::RegionEnd => number,
        _ => number + 1,
    }
}

/// Returns the first fault of these occurrences, with the number of tokens that the checks look at before it. Returns
/// `AllocError` if an allocation fails.
fn fault_among<'a>(
    occurrences: &[Occurrence<'a>],
    sites: &BTreeMap<&'a str, Site>,
    met: &mut CheckState<'a>,
) -> Result<Option<(usize, ScriptFault)>, AllocError>
    requires sites { HasPlaces sites.now (view_occurrences occurrences.now) }
    requires met { HasMet met.old [] }
    ensures fault { IfOk result (λ o. o ≡ first_from (view_occurrences occurrences.now) [] (view_occurrences occurrences.now)) }
    ensures met { IfOk result (λ o. o ≡ None → HasMet met.new (view_occurrences occurrences.now)) }
{
    let mut number = 0;
    for index in 0..occurrences.len() {
        let occurrence = &occurrences[index];
        if let Some(fault) = fault_at(occurrence, following(occurrences, index), sites, met) {
            return Ok(Some((number, fault)));
        }
        note(occurrence, met)?;
        number = number_after(occurrence.notice, number);
    }
    Ok(None)
}

/// Checks all occurrences in order.
fn check_occurrences<'a>(
    occurrences: &[Occurrence<'a>],
    sites: &BTreeMap<&'a str, Site>,
    met: &mut CheckState<'a>,
) -> Result<(), ScriptFault>
    requires sites { HasPlaces sites.now (view_occurrences occurrences.now) }
    requires met { HasMet met.old [] }
    ensures fault { Finds result (spec.fault_after (view_occurrences occurrences.now) [] (view_occurrences occurrences.now)) }
    ensures met { OnOk result (HasMet met.new (view_occurrences occurrences.now)) }
{
    match fault_among(occurrences, sites, met)? {
        None => Ok(()),
        Some((_, fault)) => Err(fault),
    }
}

/// Returns the first fault of a script's checks, but for the fault of its external: the number of tokens that the
/// checks look at before it, and the fault. Returns `None` if no check fails at any occurrence, and `AllocError` if an
/// allocation fails.
pub fn first_fault(
    alloc: Global,
    items: &[ScriptItem],
) -> Result<Option<(usize, ScriptFault)>, AllocError>
    ensures { IfOk result (λ o. MatchOption o (EachPasses (spec_occurrences (view_items items.now))) (λ x. IsFirstAfter (spec_occurrences (view_items items.now)) x.0 x.1)) }
{
    let occurrences = occurrences_of(alloc, items)?;
    let sites = sites_of(alloc, &occurrences)?;
    let mut met = met_nothing(alloc);
    fault_among(&occurrences, &sites, &mut met)
}

/// Runs all checks of a script with this external.
///
/// Returns the first fault in text order; the fault of the external comes last. Returns `OutOfMemory` if an allocation
/// fails.
pub fn check(alloc: Global, items: &[ScriptItem], external: &str) -> Result<(), ScriptFault>
    ensures well_declared { IfOk result (λ _. spec.WellDeclared (view_items items.now) external.now) }
    ensures fault { IfErr result (λ f. (f ≡ ScriptFault.OutOfMemory) ⊎ (spec.fault_of (view_items items.now) external.now ≡ Some f)) }
{
    let occurrences = occurrences_of(alloc, items)?;
    let sites = sites_of(alloc, &occurrences)?;
    let mut met = met_nothing(alloc);
    check_occurrences(&occurrences, &sites, &mut met)?;
    check_external(kind_of(&met, external), body_in(items, external))
}

/// Returns whether a name that is declared as this kind and has this body is an external with a body.
pub(crate) fn is_external(kind: Option<DeclarationKind>, body: Option<&RowOfCommands>) -> bool
    ensures { result ≡ (parts.is_some_and (spec.is_kind DeclarationKind.Externals) kind && is_some body.entry) }
{
    match kind {
        Some(DeclarationKind::Externals) => body.is_some(),
        _ => false,
    }
}

/// Checks that the external is declared as an external and has a body.
fn check_external(
    kind: Option<DeclarationKind>,
    body: Option<&RowOfCommands>,
) -> Result<(), ScriptFault>
    ensures { Finds result (if parts.is_some_and (spec.is_kind DeclarationKind.Externals) kind && is_some body.entry then None else Some ScriptFault.NoExternal) }
{
    if is_external(kind, body) {
        Ok(())
    } else {
        Err(ScriptFault::NoExternal)
    }
}
