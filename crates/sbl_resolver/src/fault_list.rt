//! All faults of a script's checks.

ghost use Rattle.std.specs.Prelude.{◌≡◌, List, [], length, IfOk};
ghost use Rattle.sbl_ast.specs.View.{view_items};
ghost use Rattle.sbl_resolver.specs.AllFaults.{faults_after, faults_of};
ghost use Rattle.sbl_resolver.specs.MetNames.{HasMet, HasPlaces};
ghost use Rattle.sbl_resolver.specs.OccurrenceView.{view_occurrences};
ghost use Rattle.sbl_resolver.specs.Subjects.{subjects_of};

use crate::bodies::body_in;
use crate::checks::{
    CheckState, fault_at, following, is_external, kind_of, met_nothing, note, number_after,
    sites_of,
};
use crate::noting::occurrences_of;
use crate::occurrences::{Occurrence, Site};
use sbl_ast::ScriptItem;
use sbl_text::ScriptFault;
use std::alloc::{AllocError, Global};
use std::collections::BTreeMap;

/// Returns the fault of each of these occurrences that has one, with the number of tokens that the checks look at before
/// it, and the number of all tokens that they look at. Returns `AllocError` if an allocation fails.
fn faults_among<'a>(
    alloc: Global,
    occurrences: &[Occurrence<'a>],
    sites: &BTreeMap<&'a str, Site>,
    met: &mut CheckState<'a>,
) -> Result<(usize, Vec<(usize, ScriptFault)>), AllocError>
    requires sites { HasPlaces sites.now (view_occurrences occurrences.now) }
    requires met { HasMet met.old [] }
    ensures number { IfOk result (λ x. x.0 ≡ length (subjects_of (view_occurrences occurrences.now))) }
    ensures faults { IfOk result (λ x. x.1.items ≡ faults_after (view_occurrences occurrences.now) [] (view_occurrences occurrences.now)) }
    ensures met { IfOk result (λ x. HasMet met.new (view_occurrences occurrences.now)) }
{
    let mut faults = Vec::new(alloc);
    let mut number = 0;
    for index in 0..occurrences.len() {
        let occurrence = &occurrences[index];
        if let Some(fault) = fault_at(occurrence, following(occurrences, index), sites, met) {
            faults.push((number, fault))?;
        }
        note(occurrence, met)?;
        number = number_after(occurrence.notice, number);
    }
    Ok((number, faults))
}

/// Returns all faults of a script's checks with this external, in text order; last the fault of the external. Each has
/// the number of tokens that the checks look at before it. Returns `AllocError` if an allocation fails.
pub fn all_faults(
    alloc: Global,
    items: &[ScriptItem],
    external: &str,
) -> Result<Vec<(usize, ScriptFault)>, AllocError>
    ensures { IfOk result (λ faults. faults.items ≡ faults_of (view_items items.now) external.now) }
{
    let occurrences = occurrences_of(alloc, items)?;
    let sites = sites_of(alloc, &occurrences)?;
    let mut met = met_nothing(alloc);
    let (number, mut faults) = faults_among(alloc, &occurrences, &sites, &mut met)?;
    if !is_external(kind_of(&met, external), body_in(items, external)) {
        faults.push((number, ScriptFault::NoExternal))?;
    }
    Ok(faults)
}
