//! Work on the files of a script and of words.

use crate::places::WorkPlaces;
use sbl_messages::{FAILED, Failure, NO_KEYS, REFUSED};
use sbl_work::{NoObserver, Observer, Paths, work};
use snowbench::{Device, Face, Lines, Wanted};
use std::alloc::{AllocError, Global};
use std::hash::RandomState;
use std::io::IsTerminal;

/// Works on the files of the command line, and returns the exit status.
pub(crate) fn start_work(rt: &HostRuntime, wanted: Wanted) -> Result<u8, Failure> {
    let face = wanted.options.face;
    match paths_of(rt.alloc(), wanted)? {
        Some(paths) => work_at(rt, &paths, face),
        None => Ok(REFUSED),
    }
}

/// Returns the files of a command line, if it has a script. Returns `AllocError` if an allocation fails.
fn paths_of(alloc: Global, mut wanted: Wanted) -> Result<Option<Paths>, AllocError> {
    let external = String::from_str(alloc, wanted.external.as_str())?;
    let options = &mut wanted.options;
    let Some(script) = options.script.take() else {
        return Ok(None);
    };
    Ok(Some(Paths {
        script,
        words: options.words.take(),
        external,
        from: options.from.take(),
        stop: options.stop.take(),
    }))
}

/// Works on files, and returns the exit status. Faults are shown with their places if the face is text, also by default at a terminal. The
/// prompt is written if the face is text, and both input and output are a terminal.
fn work_at(rt: &HostRuntime, paths: &Paths, face: Option<Face>) -> Result<u8, Failure> {
    let Ok(keys) = RandomState::new(rt) else {
        return Err(Failure::Fixed(NO_KEYS, FAILED));
    };
    let is_shown = rt.stdout().is_terminal();
    let prompts = is_shown && rt.stdin().is_terminal() && face != Some(Face::Rows);
    if face == Some(Face::Text) || (face.is_none() && is_shown) {
        let mut places = WorkPlaces::new(rt, paths);
        work_over(rt, keys, paths, prompts, &mut places)
    } else {
        work_over(rt, keys, paths, prompts, &mut NoObserver {})
    }
}

/// Works over standard input, output and error, and returns the exit status.
fn work_over<S: Observer>(
    rt: &HostRuntime,
    keys: RandomState,
    paths: &Paths,
    prompts: bool,
    observer: &mut S,
) -> Result<u8, Failure> {
    let mut lines = Lines::new(rt.alloc(), Device::new(rt.stdin()))?;
    let mut writer = Device::new(rt.stdout());
    let mut errors = Device::new(rt.stderr());
    Ok(work(
        rt,
        keys,
        paths,
        prompts,
        &mut lines,
        &mut writer,
        &mut errors,
        observer,
    ))
}
