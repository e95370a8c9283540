//! `filter` of a script in a file: nothing ends the words but the end of input.
ghost use Rattle.std.specs.Prelude.{◌≡◌, None, IfErr};
ghost use Rattle.sbl_io.specs.Devices.{WritesInTime};
ghost use Rattle.sbl_io.specs.HeldInput.{KeepsTime, input_of, reads_bound};
ghost use Rattle.snowbench.specs.Program.{HasReasons};
ghost use Rattle.snowbench.specs.ScriptFiles.{cause_of};
ghost use Rattle.snowbench.specs.WholeFilter.{FiltersFile};

use crate::script_files::{FileFault, FilesFault, parse_file};
use sbl_batch::filter_to_end;
use sbl_io::{Lines, Sink, Source};

/// Writes the row of each word, by the script of a file. The script is the lines of the file, each followed by a line feed; `script` has
/// its bytes. Reads the words from `lines`, up to the end of input; a line `.` is a word there. Writes the row of each word to `writer`,
/// before it asks for more input.
///
/// # Errors
///
/// Returns the fault of the script; then nothing is read and nothing is written. After that returns the faults of `filter_to_end`, as `Words`
/// with their line. What was written before the fault stays in `writer`.
pub fn filter_file<R: Source + Drop, W: Sink>(
    external: &str,
    script: &[u8],
    lines: &mut Lines<R>,
    writer: &mut W,
) -> Result<(), FilesFault>
    ensures filtered { lines.old.fault ≡ None → FiltersFile script.now external.now (input_of R.left lines.old) (input_of R.left lines.new) (W.held writer.old) (W.held writer.new) result }
    ensures why { lines.old.fault ≡ None → IfErr result (λ fault. HasReasons R.tally W.tally lines.old lines.new writer.old writer.new (cause_of fault)) }
    ensures bound { reads_bound R.tally lines.new ≡ reads_bound R.tally lines.old }
    ensures reads_in_time { KeepsTime R.tally lines.old lines.new }
    ensures writes_in_time { WritesInTime W.tally writer.old writer.new }
{
    let script = match parse_file(lines.alloc(), script, external) {
        Ok(script) => script,
        Err(fault) => return Err(FilesFault::Script(fault)),
    };
    let filtered = filter_to_end(lines, &script, writer);
    script.discard();
    match filtered {
        Ok(()) => Ok(()),
        Err(word) => Err(FilesFault::Words(FileFault {
            line: Some(word.line),
            fault: word.fault,
        })),
    }
}
