//! The row of an event.
ghost use Rattle.std.specs.Prelude.{◌≡◌, ◌++◌, ◌∷◌, [], OnOk, decimal};
ghost use Rattle.csv.specs.Records.{fields_of, partial_of};
ghost use Rattle.sbl_bench.specs.KeptRuns.{setting_of};
ghost use Rattle.sbl_semantics.specs.Outcome.{outcome_of};
ghost use Rattle.sbl_io.specs.Records.{record_line, records_text};
ghost use Rattle.sbl_io.specs.Reports.{TakesMore};
ghost use Rattle.sbl_semantics.specs.Events.{Finds, event_of};
ghost use Rattle.sbl_uses.specs.Moments.{after};
ghost use Rattle.sbl_explain.specs.Places.{names_at};
ghost use Rattle.sbl_explain.specs.EventViews.{fields_after, fields_before};
ghost use Rattle.sbl_explain.specs.WhyRows as spec;

use csv::ByteRecord;
use sbl_bench::Bench;
use sbl_io::{Report, push_number, push_text};
use sbl_machine::Outcome;
use sbl_run_state::Event;
use sbl_uses::Moment;
use std::alloc::{AllocError, Global};

/// Appends a signal. Returns `AllocError` if an allocation fails.
fn push_signal(csv_record: &mut ByteRecord, signal: bool) -> Result<(), AllocError>
    requires { partial_of csv_record.old ≡ [] }
    ensures fields { OnOk result (fields_of csv_record.new ≡ fields_of csv_record.old ++ spec.signal_field signal ∷ []) }
    ensures partial { OnOk result (partial_of csv_record.new ≡ []) }
{
    if signal {
        csv_record.push_field(b"t")
    } else {
        csv_record.push_field(b"f")
    }
}

/// Where a run is: the bench, and the moment.
#[derive(Clone, Copy)]
struct Place<'a> {
    alloc: Global,
    bench: &'a Bench,
    moment: &'a Moment,
}

impl<'a> Place<'a> {
    /// Returns where a run is that is at this moment.
    fn new(alloc: Global, bench: &'a Bench, moment: &'a Moment) -> Place<'a>
        ensures names { names_at result ≡ spec.routine_names (setting_of bench.now) }
        ensures moment { result.moment.now ≡ moment.now }
    {
        Place {
            alloc,
            bench,
            moment,
        }
    }

    /// Appends how deep the run is, and the name of its routine. Returns `AllocError` if an allocation fails.
    fn push(&self, csv_record: &mut ByteRecord) -> Result<(), AllocError>
        requires { partial_of csv_record.old ≡ [] }
        ensures fields { OnOk result (fields_of csv_record.new ≡ fields_of csv_record.old ++ spec.place_fields (names_at self.now) self.now.moment.now) }
        ensures partial { OnOk result (partial_of csv_record.new ≡ []) }
    {
        push_number(self.alloc, csv_record, self.moment.depth())?;
        let name = self.bench.routine_name(self.moment.routine());
        csv_record.push_field(name.as_bytes())
    }

    /// Appends the place of the run, and the number of an among. Returns `AllocError` if an allocation fails.
    fn push_among(&self, csv_record: &mut ByteRecord, among: usize) -> Result<(), AllocError>
        requires { partial_of csv_record.old ≡ [] }
        ensures fields { OnOk result (fields_of csv_record.new ≡ fields_of csv_record.old ++ spec.among_fields (names_at self.now) self.now.moment.now among) }
        ensures partial { OnOk result (partial_of csv_record.new ≡ []) }
    {
        self.push(csv_record)?;
        let number = among as u128 + 1;
        let digits = format!(in self.alloc; "{number}")?;
        csv_record.push_field(digits.as_bytes())
    }

    /// Appends the end of the search of an among to an empty record: the string of this many characters that it takes, or that it
    /// takes none. Returns `AllocError` if an allocation fails.
    fn push_end(
        &self,
        csv_record: &mut ByteRecord,
        among: usize,
        length: Option<usize>,
    ) -> Result<(), AllocError>
        requires empty { fields_of csv_record.old ≡ [] }
        requires whole { partial_of csv_record.old ≡ [] }
        ensures fields { OnOk result (fields_of csv_record.new ≡ spec.row_of (names_at self.now) self.now.moment.now (Finds among length)) }
        ensures partial { OnOk result (partial_of csv_record.new ≡ []) }
    {
        let Some(length) = length else {
            csv_record.push_field(b"none")?;
            return self.push_among(csv_record, among);
        };
        csv_record.push_field(b"taken")?;
        self.push_among(csv_record, among)?;
        let string = self.moment.string_taken(length);
        push_text(&mut String::new(self.alloc), csv_record, string)
    }

    /// Appends what the row of an event has of the time before it to an empty record. Returns `AllocError` if an allocation fails.
    fn fill_before(&self, csv_record: &mut ByteRecord, event: &Event) -> Result<(), AllocError>
        requires empty { fields_of csv_record.old ≡ [] }
        requires whole { partial_of csv_record.old ≡ [] }
        ensures fields { OnOk result (fields_of csv_record.new ≡ fields_before (names_at self.now) self.now.moment.now (event_of event.now)) }
        ensures partial { OnOk result (partial_of csv_record.new ≡ []) }
    {
        match event {
            Event::Enters(_) => csv_record.push_field(b"call"),
            Event::Leaves(signal) => {
                csv_record.push_field(b"return")?;
                self.push(csv_record)?;
                push_signal(csv_record, *signal)
            }
            Event::Searches { among, .. } => {
                csv_record.push_field(b"search")?;
                self.push_among(csv_record, *among)
            }
            Event::Finds(among, length) => self.push_end(csv_record, *among, *length),
            Event::Puts(from, to, put) => {
                csv_record.push_field(b"put")?;
                self.push(csv_record)?;
                push_number(self.alloc, csv_record, *from)?;
                push_number(self.alloc, csv_record, *to)?;
                push_text(&mut String::new(self.alloc), csv_record, put)
            }
        }
    }

    /// Appends what the row of an event has of the time after it. Returns `AllocError` if an allocation fails.
    fn fill_after(&self, csv_record: &mut ByteRecord, event: &Event) -> Result<(), AllocError>
        requires { partial_of csv_record.old ≡ [] }
        ensures { OnOk result (fields_of csv_record.new ≡ fields_of csv_record.old ++ fields_after (names_at self.now) self.now.moment.now (event_of event.now)) }
    {
        match event {
            Event::Enters(_) => self.push(csv_record),
            Event::Puts(_, _, _) => {
                push_text(&mut String::new(self.alloc), csv_record, self.moment.text())
            }
            _ => Ok(()),
        }
    }
}

/// Appends the line of an event, and goes past it. Returns `AllocError` if an allocation fails.
pub(crate) fn push_event<T: Report>(
    alloc: Global,
    out: &mut T,
    bench: &Bench,
    moment: &mut Moment,
    event: &Event,
) -> Result<(), AllocError>
    ensures line { OnOk result (TakesMore T.has_taken out.old out.new (record_line (spec.row_of (spec.routine_names (setting_of bench.now)) moment.old (event_of event.now)))) }
    ensures after { OnOk result (moment.new ≡ after (event_of event.now) moment.old) }
{
    let mut csv_record = ByteRecord::new(alloc);
    Place::new(alloc, bench, moment).fill_before(&mut csv_record, event)?;
    moment.pass(event)?;
    Place::new(alloc, bench, moment).fill_after(&mut csv_record, event)?;
    out.push(&csv_record)
}

/// Appends the line of the number of events that have no row, if there are any. Returns `AllocError` if an allocation fails.
pub(crate) fn push_more<T: Report>(
    alloc: Global,
    out: &mut T,
    number: usize,
) -> Result<(), AllocError>
    ensures { OnOk result (TakesMore T.has_taken out.old out.new (records_text (spec.more_rows number))) }
{
    if number == 0 {
        return Ok(());
    }
    let mut csv_record = ByteRecord::new(alloc);
    csv_record.push_field(b"more")?;
    push_number(alloc, &mut csv_record, number)?;
    out.push(&csv_record)
}

/// Appends the fields of an outcome to an empty record. Returns `AllocError` if an allocation fails.
fn fill_outcome(
    alloc: Global,
    csv_record: &mut ByteRecord,
    outcome: &Outcome,
) -> Result<(), AllocError>
    requires empty { fields_of csv_record.old ≡ [] }
    requires whole { partial_of csv_record.old ≡ [] }
    ensures { OnOk result (fields_of csv_record.new ≡ spec.outcome_row (outcome_of outcome.now)) }
{
    match outcome {
        Outcome::Stem(stem) => {
            csv_record.push_field(b"stem")?;
            push_text(&mut String::new(alloc), csv_record, stem)
        }
        Outcome::Refused(fault) => {
            csv_record.push_field(b"refused")?;
            csv_record.push_field(fault.name().as_bytes())
        }
    }
}

/// Appends the line of an outcome. Returns `AllocError` if an allocation fails.
pub(crate) fn push_outcome<T: Report>(
    alloc: Global,
    out: &mut T,
    outcome: &Outcome,
) -> Result<(), AllocError>
    ensures { OnOk result (TakesMore T.has_taken out.old out.new (record_line (spec.outcome_row (outcome_of outcome.now)))) }
{
    let mut csv_record = ByteRecord::new(alloc);
    fill_outcome(alloc, &mut csv_record, outcome)?;
    out.push(&csv_record)
}
