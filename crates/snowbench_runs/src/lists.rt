//! `run --as FORM`: the words and stems of files as a list.

use crate::failures::{print_line, word_keys};
use crate::files::read_files;
use sbl_messages::{
    FAILED, Failure, FileNames, NO_COMMANDS, NO_FORM, NO_STEMS, Output, REFUSED, files_failure,
    left_out_text, list_kind,
};
use snowbench::{Device, Wanted, list_files};

/// Writes the list of the words of a file, by the script of a file, and returns the exit status. Prints how many words have no line.
pub(crate) fn run_list(
    rt: &HostRuntime,
    wanted: &Wanted,
    form: &str,
    names: FileNames<'_>,
) -> Result<u8, Failure> {
    let Some(kind) = list_kind(form) else {
        return Err(Failure::Fixed(NO_FORM, REFUSED));
    };
    if names.rest.is_some() {
        return Err(Failure::Fixed(NO_COMMANDS, REFUSED));
    }
    let files = read_files(rt, names, "")?;
    let keys = word_keys(rt)?;
    let input = files.input(wanted.external.as_str());
    let mut writer = Device::new(Output::new(rt.stdout()));
    let listed = list_files(rt.alloc(), kind, keys, &input, &mut writer);
    let output = writer.into_inner();
    match listed {
        Ok(Some(words)) => {
            let left_out = (words as u64).saturating_sub(output.lines());
            if left_out > 0 {
                let line = left_out_text(rt.alloc(), left_out, form)?;
                print_line(rt, line.as_str());
            }
            Ok(0)
        }
        Ok(None) => Err(Failure::Fixed(NO_STEMS, FAILED)),
        Err(fault) => Err(files_failure(rt.alloc(), wanted, &files, fault, output.is_closed())),
    }
}
