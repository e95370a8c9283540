//! Tests of a file that is replaced, in a folder in memory, as its steps fail.

use sbl_saving::{Failed, Find, Folder, MemoryFolder, replace_file};
use std::alloc::{AllocError, Global};
use std::process::Abort;
use std::test::Fail;
use test_support::{field, is_as_row};

const OLD: &[u8] = b"old";

const NEW: &[u8] = b"the new text";

/// The text of the file (`none`: there is no file), the number of the step that fails, the steps that are taken, and the result of each; the
/// step that failed, whether the new file could not be removed, the new file, the target; what may be found at the target now, and what
/// might have been found there until now (`?`: not asked). Each step of a replacement fails in turn. Bytes that are not flushed may be
/// anything. A new file that is not removed is left, until it is made again.
const ROWS: &str = "old|0|replace|Err(NotMade);|Some(Create)|?|none|old|old;|old;
old|1|replace|Err(NotWritten);|Some(Write)|?|none|old|old;|old;
old|2|replace|Err(NotWritten);|Some(Flush)|?|none|old|old;|old;
old|3|replace|Err(NotNamed);|Some(Rename)|?|none|old|old;|old;
old|4|replace|Err(NotSettled);|Some(FlushNames)|?|none|new|old;new;|old;new;
old|5|replace|Ok(());|None|?|none|new|new;|old;new;
old|6|replace|Ok(());|None|?|none|new|new;|old;new;
old|9|create write rename|Ok(());Ok(());Ok(());|?|?|?|?|old;anything;|old;anything;
none|1|create remove|Ok(());Err(Failed);|None|true|empty|?|?|?
none|1|create remove create|Ok(());Err(Failed);Ok(());|?|false|?|?|?|?";

/// Takes a step, or replaces the file. Returns its result as text.
fn step(alloc: Global, folder: &mut MemoryFolder, name: &str) -> Result<String, AllocError> {
    if name == "replace" {
        let result = replace_file(folder, NEW);
        return format!(in alloc; "{result:?};");
    }
    let result: Result<(), Failed> = match name {
        "create" => folder.create(),
        "write" => folder.write(NEW),
        "rename" => folder.rename(),
        _ => folder.remove(),
    };
    format!(in alloc; "{result:?};")
}

/// Takes steps. Returns their results as text.
fn steps(alloc: Global, folder: &mut MemoryFolder, names: &str) -> Result<String, AllocError> {
    let mut results = String::new(alloc);
    for name in names.split(' ') {
        results.push_str(step(alloc, folder, name)?.as_str())?;
    }
    Ok(results)
}

/// Returns the name of a text, or `none` if there is no file.
fn name_of(file: &Option<Vec<u8>>) -> &'static str {
    let Some(text) = file else {
        return "none";
    };
    if text.is_empty() {
        "empty"
    } else if text.as_slice() == OLD {
        "old"
    } else if text.as_slice() == NEW {
        "new"
    } else {
        "another"
    }
}

/// Returns the names of what may be found.
fn names_of(alloc: Global, finds: &[Find]) -> Result<String, AllocError> {
    let mut names = String::new(alloc);
    for find in finds {
        names.push_str(match find {
            Find::Exactly(file) => name_of(file),
            Find::Anything => "anything",
        })?;
        names.push(';')?;
    }
    Ok(names)
}

/// Returns what a folder has, as in a row.
fn state_of(alloc: Global, folder: &MemoryFolder) -> Result<String, AllocError> {
    let now = names_of(alloc, &folder.finds_now)?;
    let ever = names_of(alloc, &folder.finds_ever)?;
    let (failed, is_left) = (folder.failed, folder.is_left);
    let (draft, target) = (name_of(&folder.draft), name_of(&folder.target));
    format!(in alloc; "{failed:?}|{is_left}|{draft}|{target}|{now}|{ever}")
}

/// Takes steps. Returns their results, and what the folder has then.
fn take_steps(alloc: Global, folder: &mut MemoryFolder, names: &str) -> Result<String, AllocError> {
    let results = steps(alloc, folder, names)?;
    let state = state_of(alloc, folder)?;
    format!(in alloc; "{results}|{state}")
}

/// Takes the steps of a row. Returns their results, and what the folder has then.
fn take_row(alloc: Global, row: &str) -> Result<String, AllocError> {
    let target = match field(row, 0) {
        "old" => Some(OLD.to_vec(alloc)?),
        _ => None,
    };
    let failing: u32 = field(row, 1).parse().unwrap_or(0);
    let mut folder = MemoryFolder::new(alloc, target, failing)?;
    let text = take_steps(alloc, &mut folder, field(row, 2));
    drop(folder);
    text
}

/// Asserts that each row comes about.
fn take_rows(rt: &impl Abort, alloc: Global) -> Result<(), Fail> {
    for row in ROWS.split('\n') {
        let text = take_row(alloc, row)?;
        assert!(rt; is_as_row(row, 3, text.as_str()), "{row}: {text}");
    }
    Ok(())
}

#[test]
fn a_replaced_file_has_its_old_text_or_its_new_one(rt: HostRuntime) -> Result<(), Fail> {
    take_rows(&rt, rt.alloc())
}
