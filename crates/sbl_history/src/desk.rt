//! A desk: what is kept beside a bench at work, so that its edits can be undone and its rows compared with those at a mark.
ghost use Rattle.std.specs.Option.{option_map};
ghost use Rattle.std.specs.Prelude.{◌≡◌, ℕ, List, [], IfErr, IfOk, IfSome, OnErr, OnOk, None, Some, length, map, string_bytes, true};
ghost use Rattle.sbl_bench.specs.Contents.{rows_now};
ghost use Rattle.sbl_bench.specs.BreakingOff.{BreaksIfTold};
ghost use Rattle.sbl_bench.specs.Edits.{Whole};
ghost use Rattle.sbl_bench.specs.KeptRuns.{contents_of};
ghost use Rattle.sbl_print.specs.Canonical.{canonical};
ghost use Rattle.sbl_rows.specs.Rows.{view_row};
ghost use Rattle.sbl_rows.specs.StemRows.{rows_with};
ghost use Rattle.sbl_history.specs.Desks.{KeepsRest, Redoes, TurnBreaksIfTold, Undoes, first_desk, state_of, text_in, view_kind, view_text};
ghost use Rattle.sbl_history.specs.History.{OfScript};
ghost use Rattle.sbl_history.specs.Listing as listing;
ghost use Rattle.sbl_history.specs.Refused.{view_refused};
ghost use Rattle.sbl_history.specs.{Editing.NotesLimit, Editing.Remembers, Editing.Replaces, Editing.ReplacesPart, Splicing.IsTextIn, Splicing.Reads};
ghost use Rattle.sbl_script.specs.Parts.{view_part};

use crate::breaking::{replace_part, replace_script};
use crate::history::{HistoryFault, text_of, turn};
use crate::kinds::HeldKind;
use crate::listing::history_text;
use crate::marks::{MarkedRow, copy_rows, rows_of_stems, views_of};
use crate::refused::Refused;
use crate::splice::{SplicedText, splice};
use crate::steps::{HeldEdit, History, Step};
use sbl_bench::{Bench, BreakOff, EditFault, Row};
use sbl_script::Part;
use std::alloc::{AllocError, Global};

/// What is kept beside a bench at work: the text of its script, the edits that can be undone and redone, and the rows at the
/// mark. Each function that edits takes the bench of this desk.
#[derive(Drop)]
pub struct Desk {
    alloc: Global,
    // a text of the current script, if one is known
    text: Option<Vec<u8>>,
    history: History,
    marked: Vec<MarkedRow>,
    // the text that was refused last, unless one was accepted since
    refused: Option<Refused>,
    // whether edits may be broken off
    may_break: bool,
}

/// The script before an edit.
#[derive(Drop)]
struct Before {
    text: Vec<u8>,
    canonical: String,
}

impl Desk {
    /// Returns the desk of a bench whose script was read from this text. The mark is set; there is nothing to undo or redo. Edits may
    /// be broken off if `may_break` is true.
    ///
    /// # Errors
    ///
    /// Returns `AllocError` if an allocation fails.
    pub fn new(
        alloc: Global,
        bench: &Bench,
        text: Vec<u8>,
        may_break: bool,
    ) -> Result<Desk, AllocError>
        ensures { IfOk result (λ d. state_of d ≡ first_desk may_break (contents_of bench.now) text.items) }
    {
        let marked = copy_rows(alloc, bench)?;
        let history = History::new(alloc)?;
        Ok(Desk {
            alloc,
            text: Some(text),
            history,
            marked,
            refused: None,
            may_break,
        })
    }

    /// Returns whether edits may be broken off.
    pub fn may_break(&self) -> bool
        ensures { result ≡ (state_of self.now).may_break }
    {
        self.may_break
    }

    /// Returns the rows at the mark, in the order of the vocabulary then.
    ///
    /// # Errors
    ///
    /// Returns `AllocError` if an allocation fails.
    pub fn marked_rows(&self) -> Result<Vec<Row<'_>>, AllocError>
        ensures { IfOk result (λ rows. map view_row rows.items ≡ (state_of self.now).marked) }
    {
        views_of(self.alloc, &self.marked)
    }

    /// Sets the mark: remembers the rows of the bench as they are.
    ///
    /// # Errors
    ///
    /// Returns `AllocError` if an allocation fails; then the desk is unchanged.
    pub fn mark(&mut self, bench: &Bench) -> Result<(), AllocError>
        ensures marked { OnOk result (state_of self.new ≡ record (state_of self.old) { marked = rows_now (contents_of bench.now) }) }
        ensures kept { OnErr result (state_of self.new ≡ state_of self.old) }
    {
        self.marked = copy_rows(self.alloc, bench)?;
        Ok(())
    }

    /// Sets the mark to the words of the bench with these stems, one for each word, in the order of the vocabulary.
    ///
    /// # Errors
    ///
    /// Returns `AllocError` if an allocation fails; then the desk is unchanged.
    pub fn mark_stems(&mut self, bench: &Bench, stems: &[Vec<char>]) -> Result<(), AllocError>
        requires { length stems.now ≡ length (contents_of bench.now).words }
        ensures marked { OnOk result (state_of self.new ≡ record (state_of self.old) { marked = rows_with (contents_of bench.now).words (map (λ s. s.items) stems.now) }) }
        ensures kept { OnErr result (state_of self.new ≡ state_of self.old) }
    {
        self.marked = rows_of_stems(self.alloc, bench, stems)?;
        Ok(())
    }

    /// Notes that the bench may have another limit now than this one, which it had before. If it has, the limit before is
    /// remembered.
    pub fn note_limit(&mut self, bench: &Bench, before: u32)
        ensures { NotesLimit before (contents_of bench.now) (state_of self.old) (state_of self.new) }
    {
        if before != bench.limit() {
            self.history.remember(HeldEdit {
                kind: HeldKind::Limit(bench.limit()),
                step: Step::Limit(before),
            });
        }
    }

    /// Returns the script before an edit. Returns `AllocError` if an allocation fails.
    fn before(&self, bench: &Bench) -> Result<Before, AllocError>
        ensures text { IfOk result (λ b. b.text.items ≡ text_in (contents_of bench.now) (view_text self.now.text)) }
        ensures canonical { IfOk result (λ b. string_bytes b.canonical ≡ canonical (contents_of bench.now).setting.script.items) }
    {
        let text = text_of(self.alloc, bench, &self.text)?;
        let canonical = bench.script().print(self.alloc)?;
        Ok(Before { text, canonical })
    }

    /// Notes an edit of the script, with the text after it. Remembers the edit unless the canonical text is the same.
    fn note(&mut self, bench: &Bench, kind: HeldKind, before: Before, text: Option<Vec<u8>>)
        ensures text { (state_of self.new).text ≡ view_text text }
        ensures rest { KeepsRest (state_of self.old) (state_of self.new) }
        ensures past { Remembers (view_kind kind) before.text.items (canonical (contents_of bench.now).setting.script.items ≡ string_bytes before.canonical) (state_of self.old) (state_of self.new) }
    {
        self.text = text;
        if has_canonical(self.alloc, bench, before.canonical.as_str()) {
            return;
        }
        self.history.remember(HeldEdit {
            kind,
            step: Step::Text(before.text),
        });
    }

    /// Replaces the whole script, as `Bench::replace_script` does, and remembers the edit if it changed the script.
    ///
    /// # Errors
    ///
    /// Returns the faults of `Bench::replace_script`, and `BrokenOff` if edits may be broken off and `break_off` says so before a run. Then
    /// the desk is unchanged.
    #[tactic(auto, using(crate::proofs::Refusing::nothing_tried))]
    pub fn replace<B: BreakOff>(
        &mut self,
        bench: &mut Bench,
        text: &[u8],
        break_off: &mut B,
    ) -> Result<(), EditFault>
        ensures replaces { Replaces result OfScript (Whole text.now) (Some text.now) (contents_of bench.old) (state_of self.old) (contents_of bench.new) (state_of self.new) }
        ensures untold { OnOk result (B.said break_off.new ≡ B.said break_off.old) }
        ensures told { IfErr result (λ f. BreaksIfTold (B.said break_off.old) (B.said break_off.new) f) }
    {
        let kept = Vec::from_slice(self.alloc, text)?;
        let before = self.before(bench)?;
        replace_script(bench, text, self.may_break, break_off)?;
        self.note(bench, HeldKind::Script, before, Some(kept));
        Ok(())
    }

    /// Replaces a part of the script by a text, as `Bench::replace` does, and remembers the edit if it changed the script. The
    /// current text is the text before with this part put into it, if that is a text of the script after the edit; otherwise the
    /// canonical text.
    ///
    /// # Errors
    ///
    /// Returns the faults of `Bench::replace`, and `BrokenOff` if edits may be broken off and `break_off` says so before a run. Returns
    /// `OutOfMemory` also if an allocation fails before the edit is tried. Then the desk is unchanged.
    pub fn replace_part<B: BreakOff>(
        &mut self,
        bench: &mut Bench,
        part: Part<'_>,
        text: &str,
        break_off: &mut B,
    ) -> Result<(), EditFault>
        ensures replaces { ReplacesPart result (view_part part.entry) text.now (contents_of bench.old) (state_of self.old) (contents_of bench.new) (state_of self.new) }
        ensures untold { OnOk result (B.said break_off.new ≡ B.said break_off.old) }
        ensures told { IfErr result (λ f. BreaksIfTold (B.said break_off.old) (B.said break_off.new) f) }
    {
        let kind = HeldKind::of_part(self.alloc, part)?;
        let before = self.before(bench)?;
        let external = bench.script().external();
        let found = splice(self.alloc, &before.text, external, part, text)?;
        replace_part(bench, part, text, self.may_break, break_off)?;
        let kept = text_in_force(self.alloc, bench, found);
        self.note(bench, kind, before, kept);
        Ok(())
    }

    /// Undoes the latest edit that changed the script or the limit. The vocabulary stays as it is.
    ///
    /// # Errors
    ///
    /// Returns `Nothing` if there is none, and `Edit` with the fault of the bench: `MeterFull`, `OutOfMemory`, `BrokenOff` as `replace`, or
    /// `Script` with `ScriptTooLong` if the script before was made by an edit of a part and its canonical text has more than 1,048,576
    /// bytes. Then nothing changes but, maybe, the count of runs.
    pub fn undo<B: BreakOff>(
        &mut self,
        bench: &mut Bench,
        break_off: &mut B,
    ) -> Result<(), HistoryFault>
        ensures turns { Undoes result (contents_of bench.old) (state_of self.old) (contents_of bench.new) (state_of self.new) }
        ensures untold { OnOk result (B.said break_off.new ≡ B.said break_off.old) }
        ensures told { IfErr result (λ f. TurnBreaksIfTold (B.said break_off.old) (B.said break_off.new) f) }
    {
        let may_break = self.may_break;
        let text = &mut self.text;
        let past = &mut self.history;
        let from = &mut past.earlier;
        let to = &mut past.later;
        turn(self.alloc, bench, text, from, to, may_break, break_off)
    }

    /// Redoes the edit that was undone last.
    ///
    /// # Errors
    ///
    /// As `undo`.
    pub fn redo<B: BreakOff>(
        &mut self,
        bench: &mut Bench,
        break_off: &mut B,
    ) -> Result<(), HistoryFault>
        ensures turns { Redoes result (contents_of bench.old) (state_of self.old) (contents_of bench.new) (state_of self.new) }
        ensures untold { OnOk result (B.said break_off.new ≡ B.said break_off.old) }
        ensures told { IfErr result (λ f. TurnBreaksIfTold (B.said break_off.old) (B.said break_off.new) f) }
    {
        let may_break = self.may_break;
        let text = &mut self.text;
        let past = &mut self.history;
        let from = &mut past.later;
        let to = &mut past.earlier;
        turn(self.alloc, bench, text, from, to, may_break, break_off)
    }

    /// Keeps a text that was refused, in place of the last one.
    pub fn note_refused(&mut self, refused: Refused)
        ensures { state_of self.new ≡ record (state_of self.old) { refused = Some (view_refused refused) } }
    {
        self.refused = Some(refused);
    }

    /// Forgets the text that was refused last, since one was accepted.
    pub fn note_accepted(&mut self)
        ensures { state_of self.new ≡ record (state_of self.old) { refused = None } }
    {
        self.refused = None;
    }

    /// Returns the text that was refused last, if one is kept.
    pub fn refused_text(&self) -> Option<&Refused>
        ensures { option_map (λ r. view_refused r.now) result ≡ (state_of self.now).refused }
    {
        self.refused.as_ref()
    }

    /// Returns the rows of the edits that can be undone, the oldest first, and then of those that can be redone, the next one first.
    ///
    /// # Errors
    ///
    /// Returns `AllocError` if an allocation fails.
    pub fn history(&self) -> Result<Vec<u8>, AllocError>
        ensures { IfOk result (λ text. text.items ≡ listing.history_text (state_of self.now).past) }
    {
        history_text(self.alloc, &self.history)
    }

    /// Returns the text of the current script: the bytes that it was read from, with the typed parts put into them, or its
    /// canonical text.
    ///
    /// # Errors
    ///
    /// Returns `AllocError` if an allocation fails.
    pub fn text(&self, bench: &Bench) -> Result<Vec<u8>, AllocError>
        ensures { IfOk result (λ t. t.items ≡ text_in (contents_of bench.now) (state_of self.now).text) }
    {
        text_of(self.alloc, bench, &self.text)
    }
}

/// Returns the text if it is known to be one of the script of the bench; `None` also if an allocation fails.
fn text_in_force(alloc: Global, bench: &Bench, found: Option<SplicedText>) -> Option<Vec<u8>>
    ensures { (external : List ℕ) → IfSome found (λ c. Reads external c.text.items (string_bytes c.canonical)) → IfSome (view_text result) (IsTextIn (contents_of bench.now) external) }
{
    match found {
        Some(spliced) => {
            if has_canonical(alloc, bench, spliced.canonical.as_str()) {
                Some(spliced.text)
            } else {
                None
            }
        }
        None => None,
    }
}

/// Whether the script of a bench is known to have this canonical text; false also if an allocation fails.
fn has_canonical(alloc: Global, bench: &Bench, text: &str) -> bool
    ensures { result ≡ true → canonical (contents_of bench.now).setting.script.items ≡ text.now }
{
    match bench.script().print(alloc) {
        Ok(canonical) => canonical.as_str() == text,
        Err(_) => false,
    }
}
