//! The files of a run: opens and reads them.

use sbl_messages::{
    Failure, FileNames, NamedFile, RunFiles, file_name, unread_failure, unread_input_failure,
};
use std::fs::File;
use std::io::{IsTerminal, Read};
use std::{fs, io};

/// Reads the files of a run. `what` are the lines of the last one.
pub(crate) fn read_files<'a>(
    rt: &HostRuntime,
    names: FileNames<'a>,
    what: &str,
) -> Result<RunFiles<'a>, Failure> {
    let script = read_file(rt, names.script, "lines of the script")?;
    let words = read_file(rt, names.words, "words")?;
    let rest = match names.rest {
        Some(path) => read_file(rt, path, what)?,
        None => NamedFile {
            name: "",
            bytes: Vec::new(rt.alloc()),
        },
    };
    Ok(RunFiles {
        script,
        words,
        rest,
    })
}

/// Reads a file, or standard input if its name is `-`. `what` are its lines.
pub(crate) fn read_file<'a>(
    rt: &HostRuntime,
    path: &'a str,
    what: &str,
) -> Result<NamedFile<'a>, Failure> {
    let bytes = match path {
        "-" => read_input(rt, what)?,
        _ => read_path(rt, path)?,
    };
    let name = file_name(path);
    Ok(NamedFile { name, bytes })
}

/// Returns the bytes of a file.
fn read_path(rt: &HostRuntime, path: &str) -> Result<Vec<u8>, Failure> {
    match fs::read(rt, path) {
        Ok(bytes) => Ok(bytes),
        Err(error) => Err(unread_failure(rt.alloc(), path, error.kind())),
    }
}

/// Opens a file.
pub(crate) fn open_named(rt: &HostRuntime, path: &str) -> Result<File, Failure> {
    match fs::open(rt, path) {
        Ok(file) if !is_folder(&file) => Ok(file),
        Ok(_) => Err(unread_failure(rt.alloc(), path, io::ErrorKind::Other)),
        Err(error) => Err(unread_failure(rt.alloc(), path, error.kind())),
    }
}

/// Returns whether an open file is a folder.
fn is_folder(file: &File) -> bool {
    match file.metadata() {
        Ok(metadata) => metadata.is_dir(),
        Err(_) => false,
    }
}

/// Returns the bytes of standard input. At a terminal it says which lines are to be typed.
fn read_input(rt: &HostRuntime, what: &str) -> Result<Vec<u8>, Failure> {
    if rt.stdin().is_terminal() {
        let _ = eprintln!(rt;
            "snowbench: {what}, one a line; the end of input (control-D) ends them"
        );
    }
    let mut bytes = Vec::new(rt.alloc());
    match rt.stdin().read_to_end(&mut bytes) {
        Ok(_) => Ok(bytes),
        Err(error) => Err(unread_input_failure(rt.alloc(), &error)),
    }
}
