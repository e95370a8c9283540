//! `run` with a form: the words and their stems as a list for a search engine, or the stems alone.
ghost use Rattle.std.specs.Prelude.{◌≡◌, IfErr, IfOk, option_map};
ghost use Rattle.sbl_bench.specs.Contents.{rows_now};
ghost use Rattle.sbl_bench.specs.KeptRuns.{contents_of};
ghost use Rattle.sbl_io.specs.Devices.{HasStopped, WritesInTime};
ghost use Rattle.snowbench.specs.WholeList.{ListsFiles, list_of};

use crate::script_files::{FilesFault, FilesInput, open_files};
use sbl_bench::{Bench, NoProgress, WordKeys};
use sbl_io::{ServeFault, Sink, write_all};
use sbl_reports::{ListForm, stem_lines, word_list};
use std::alloc::{AllocError, Global};

/// What a list has of each word.
#[derive(Clone, Copy, Debug, PartialEq, Eq)]
pub enum ListKind {
    /// The word and its stem, in this form.
    Words(ListForm),
    /// The stem alone.
    Stems,
}

/// Writes the list of the words of a file, by the script of a file, and returns the number of words of the vocabulary. Returns `None` and
/// writes nothing if `Stems` has not a stem for each word, without a line feed and without a carriage return at its end.
///
/// # Errors
///
/// Returns the fault of the script, or else that of the words; then nothing is written. Returns `Run` with `OutOfMemory` if there is no
/// memory for the list, and with `Write` if the writer fails or is interrupted more than 1,000 times in a row; then a prefix of the list is
/// written.
pub fn list_files<W: Sink>(
    alloc: Global,
    kind: ListKind,
    keys: WordKeys,
    input: &FilesInput<'_>,
    writer: &mut W,
) -> Result<Option<usize>, FilesFault>
    ensures listed { ListsFiles kind input.now (W.held writer.old) (W.held writer.new) result }
    ensures why { IfErr result (λ fault. fault ≡ FilesFault.Run ServeFault.Write → HasStopped W.tally writer.old writer.new) }
    ensures writes_in_time { WritesInTime W.tally writer.old writer.new }
{
    let bench = match open_files(alloc, keys, input, &mut NoProgress {}) {
        Ok(bench) => bench,
        Err(fault) => return Err(fault),
    };
    let words = bench.len();
    let made = list_text(alloc, &bench, kind);
    bench.leak();
    match made {
        Ok(Some(text)) => match write_all(writer, &text) {
            Ok(()) => Ok(Some(words)),
            Err(fault) => Err(FilesFault::Run(fault)),
        },
        Ok(None) => Ok(None),
        Err(_) => Err(FilesFault::Run(ServeFault::OutOfMemory)),
    }
}

/// Returns the list of a bench, if there is one.
fn list_text(alloc: Global, bench: &Bench, kind: ListKind) -> Result<Option<Vec<u8>>, AllocError>
    ensures { IfOk result (λ text. option_map (λ t. t.items) text ≡ list_of kind (rows_now (contents_of bench.now))) }
{
    match kind {
        ListKind::Words(form) => Ok(Some(word_list(alloc, bench, form)?)),
        ListKind::Stems => stem_lines(alloc, bench),
    }
}
