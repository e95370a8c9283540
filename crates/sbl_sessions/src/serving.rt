//! A session: each request gets its reply before the next line is read.
ghost use Rattle.std.specs.Prelude.{◌≡◌, ◌≤◌, None, Some, Err, IfOk, IfErr, OnOk};
ghost use Rattle.std.specs.Io.KnownBytes.{IsAtEnd};
ghost use Rattle.sbl_bench.specs.KeptRuns.{contents_of};
ghost use Rattle.sbl_sessions.specs.CommandViews.{IsAnswer, IsAnswerOrBreak};
ghost use Rattle.sbl_sessions.specs.inside.RequestViews.{BreaksBlock, IsAnswered};
ghost use Rattle.sbl_bench.specs.Edits.{Limit};
ghost use Rattle.sbl_sessions.specs.Commands.{Makes, line_command};
ghost use Rattle.sbl_io.specs.Devices.{WritesInTime};
ghost use Rattle.sbl_io.specs.Faults.{left_by};
ghost use Rattle.sbl_io.specs.declared.faults.LineFault.{LineFault};
ghost use Rattle.sbl_io.specs.HeldInput.{IsDrained, KeepsTime, Reading, input_of, line_of, reads_bound};
ghost use Rattle.sbl_sessions.specs.Session.{Ends, IsSession, ReturnsAgain, moment};

use crate::replies::{BAD_COMMAND, Reply, edit_text, report, write_reply};
use crate::reports::{
    class_reply, classes_text, keep_classes, runs_text, script_text, stems_text, trace_reply,
};
use crate::session_commands::{Command, asks_block, command_of, keep_line};
use crate::session_edits::{add_word, edit_script, remove_word};
use crate::watching::{NoWatch, RefusedEdit, Watch};
use sbl_bench::{Bench, BreakOff, EditFault};
use sbl_io::{Lines, ServeFault, Sink, Source};
use sbl_reports::read_block;
use std::alloc::Global;

/// Makes the edit or the report that a line without a block asks for, and returns the reply.
pub fn answer_line(alloc: Global, bench: &mut Bench, line: &[u8]) -> Reply
    ensures { IsAnswer (contents_of bench.old) (line_command line.now) result (contents_of bench.new) }
{
    match command_of(line) {
        Command::Nothing => Reply::Fixed(""),
        Command::Add(word) => Reply::Fixed(add_word(bench, word)),
        Command::Remove(word) => Reply::Fixed(remove_word(bench, word)),
        Command::Limit(number) => Reply::Fixed(edit_text(bench.set_limit(number))),
        Command::HasNoNumber => Reply::Fixed(edit_text(Err(EditFault::BadLimit))),
        Command::Stems => report(stems_text(alloc, bench)),
        Command::Classes => {
            keep_classes(bench);
            report(classes_text(alloc, bench))
        }
        Command::Script => report(script_text(alloc, bench)),
        Command::Class(word) => {
            keep_classes(bench);
            class_reply(alloc, bench, word)
        }
        Command::Trace(word) => trace_reply(alloc, bench, word),
        Command::Runs => report(runs_text(alloc, bench)),
        Command::Bad => Reply::Fixed(BAD_COMMAND),
    }
}

/// Sets the limit, and returns the reply; `no 68 BrokenOff` if `break_off` says so before a run.
fn limit_or_break<B: BreakOff>(bench: &mut Bench, number: u64, break_off: &mut B) -> Reply
    ensures { IsAnswerOrBreak (B.said break_off.old) (B.said break_off.new) (contents_of bench.old) (Makes (Limit number)) result (contents_of bench.new) }
{
    Reply::Fixed(edit_text(bench.set_limit_or_break(number, break_off)))
}

/// Does what `answer_line` does. A limit may be broken off: if `break_off` says so before a run, the reply is `no 68 BrokenOff`.
pub fn answer_line_or_break<B: BreakOff>(
    alloc: Global,
    bench: &mut Bench,
    line: &[u8],
    break_off: &mut B,
) -> Reply
    ensures { IsAnswerOrBreak (B.said break_off.old) (B.said break_off.new) (contents_of bench.old) (line_command line.now) result (contents_of bench.new) }
{
    match command_of(line) {
        Command::Limit(number) => limit_or_break(bench, number, break_off),
        _ => answer_line(alloc, bench, line),
    }
}

/// The reply to a request, the edit if it was refused, and the number of lines of the block with its line `.`.
#[derive(Drop)]
struct Answered {
    reply: Reply,
    refused: Option<RefusedEdit>,
    lines: u64,
}

/// Makes the edit or the report that the current line asks for, with the block after it if it asks for one, and returns the
/// reply. If the block is not read to its end, makes no edit and returns the fault: `Cut` if the input ends before the line `.`,
/// and `Read` and `LineTooLong` as the lines return them.
fn answer<R: Source + Drop>(bench: &mut Bench, lines: &mut Lines<R>) -> Result<Answered, ServeFault>
    requires ready { lines.old.fault ≡ None }
    ensures answered { IfOk result (λ a. IsAnswered (input_of R.left lines.old) (input_of R.left lines.new) (line_of lines.old) (contents_of bench.old) a.reply (contents_of bench.new)) }
    ensures broken { IfErr result (λ fault. BreaksBlock (input_of R.left lines.old) (input_of R.left lines.new) (line_of lines.old) fault × (contents_of bench.new ≡ contents_of bench.old)) }
    ensures reading { Reading R.left R.tally lines.old lines.new result }
{
    if !asks_block(lines.line()) {
        return Ok(Answered {
            reply: answer_line(lines.alloc(), bench, lines.line()),
            refused: None,
            lines: 0,
        });
    }
    let kept = keep_line(lines.alloc(), lines.line());
    let block = read_block(lines)?;
    let count = block.line_count();
    let edited = edit_script(bench, kept, block);
    Ok(Answered {
        reply: Reply::Fixed(edited.text),
        refused: edited.refused,
        lines: count.saturating_add(1),
    })
}

/// Replies to each request of the input in turn, up to the end of input. A request is a line and, if its command word is
/// `routine`, `among` or `grouping`, the block after it: the lines up to a line `.`. The reply to a request is written before
/// the next line is read. These are the replies:
///
/// - `add WORD`, `remove WORD`, `routine NAME`, `among NAME K`, `grouping NAME` and `limit N`: `ok`, or `no` with the number
///   and name of the fault.
/// - `stems`: a row for each word. `classes`: a row for each class.
/// - `class WORD`: the word's class, or its row if its run is refused, or `no 41 Absent`.
/// - `script`: the canonical text of the current script.
/// - `trace WORD`: a row for each routine, each among and each grouping that the run of the word touches, or `no 41 Absent`.
/// - `runs`: the number of runs that the bench has made.
/// - An empty line: nothing. Any other line: `no 52 BadCommand`.
///
/// If an allocation fails, the reply is `no 49 OutOfMemory`.
///
/// # Errors
///
/// Returns `Read` if the reader fails or a bound on reads or interruptions is reached, `Write` if the writer fails or is
/// interrupted more than 1,000 times in a row, `LineTooLong` at a line of more than 65,536 bytes, and `Cut` if the input ends
/// inside a block. The requests before the fault have their replies, and the bench keeps their edits; a request that the fault
/// cuts off has no reply and makes no edit. After `Read`, the requests with a reply are all whole requests that were read.
/// After `Write`, the edit of the current request is made, a prefix of its reply is written, and the next line is the one after
/// the request. The lines keep `Read` and `LineTooLong`: if they have returned one of them before, `serve` returns it again and
/// does nothing.
pub fn serve<R: Source + Drop, W: Sink>(
    bench: &mut Bench,
    lines: &mut Lines<R>,
    writer: &mut W,
) -> Result<(), ServeFault>
    ensures session { lines.old.fault ≡ None → IsSession (moment R.left W.held lines.old writer.old bench.old) (moment R.left W.held lines.new writer.new bench.new) result }
    ensures ends { Ends R.tally W.tally lines.old lines.new writer.old writer.new result }
    ensures steady { OnOk result (((R.tally lines.new.reader).failures ≡ (R.tally lines.old.reader).failures) × ((W.tally writer.new).failures ≡ (W.tally writer.old).failures)) }
    ensures whole { OnOk result (IsAtEnd (input_of R.left lines.new)) }
    ensures drained { result ≡ Err ServeFault.Read → lines.old.fault ≡ None → IsDrained lines.new }
    ensures remembered { lines.new.fault ≡ left_by result }
    ensures again { (f : LineFault) → lines.old.fault ≡ Some f → ReturnsAgain f (moment R.left W.held lines.old writer.old bench.old) (moment R.left W.held lines.new writer.new bench.new) result }
    ensures bound { reads_bound R.tally lines.new ≡ reads_bound R.tally lines.old }
    ensures reads_in_time { KeepsTime R.tally lines.old lines.new }
    ensures writes_in_time { WritesInTime W.tally writer.old writer.new }
{
    serve_watched(bench, lines, writer, &mut NoWatch {})
}

/// Does what `serve` does, and tells `watch` of each reply, and of each edit of the script that is refused: after its reply, before the next
/// line is read. What `watch` does has no part in the session.
pub fn serve_watched<R: Source + Drop, W: Sink, S: Watch>(
    bench: &mut Bench,
    lines: &mut Lines<R>,
    writer: &mut W,
    watch: &mut S,
) -> Result<(), ServeFault>
    ensures session { lines.old.fault ≡ None → IsSession (moment R.left W.held lines.old writer.old bench.old) (moment R.left W.held lines.new writer.new bench.new) result }
    ensures ends { Ends R.tally W.tally lines.old lines.new writer.old writer.new result }
    ensures steady { OnOk result (((R.tally lines.new.reader).failures ≡ (R.tally lines.old.reader).failures) × ((W.tally writer.new).failures ≡ (W.tally writer.old).failures)) }
    ensures whole { OnOk result (IsAtEnd (input_of R.left lines.new)) }
    ensures drained { result ≡ Err ServeFault.Read → lines.old.fault ≡ None → IsDrained lines.new }
    ensures remembered { lines.new.fault ≡ left_by result }
    ensures again { (f : LineFault) → lines.old.fault ≡ Some f → ReturnsAgain f (moment R.left W.held lines.old writer.old bench.old) (moment R.left W.held lines.new writer.new bench.new) result }
    ensures bound { reads_bound R.tally lines.new ≡ reads_bound R.tally lines.old }
    ensures reads_in_time { KeepsTime R.tally lines.old lines.new }
    ensures writes_in_time { WritesInTime W.tally writer.old writer.new }
{
    let mut row: u64 = 0;
    while lines.next_line()? {
        row = row.saturating_add(1);
        let answered = answer(bench, lines)?;
        write_reply(writer, &answered.reply)?;
        watch.see_reply(&answered.reply);
        if let Some(edit) = &answered.refused {
            watch.see_refused(bench, edit, row);
        }
        row = row.saturating_add(answered.lines);
    }
    Ok(())
}
