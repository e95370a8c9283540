//! The places of faults in what work refuses, on standard error.

use sbl_bench::Bench;
use sbl_messages::{refused_block_text, refused_script_text};
use sbl_work::{Observer, Paths, RefusedSource};

/// Prints what is wrong with each text that work refuses.
#[derive(Drop)]
pub(crate) struct WorkPlaces<'a> {
    rt: &'a HostRuntime,
    paths: &'a Paths,
}

impl<'a> WorkPlaces<'a> {
    /// Returns these before the work.
    pub(crate) fn new(rt: &'a HostRuntime, paths: &'a Paths) -> WorkPlaces<'a> {
        WorkPlaces { rt, paths }
    }

    /// Prints what there is to say, if there is something.
    fn print(&self, said: Option<String>) {
        if let Some(said) = said {
            let _ = eprintln!(self.rt; "{said}");
        }
    }
}

impl Observer for WorkPlaces<'_> {
    fn see_start(&mut self, text: &[u8]) {
        let paths = self.paths;
        let path = paths.from.as_ref().unwrap_or(&paths.script);
        let external = paths.external.as_str();
        let said = refused_script_text(self.rt.alloc(), path.as_str(), text, external);
        self.print(said);
    }

    fn see_refused(&mut self, bench: &Bench, refused: &RefusedSource) {
        let (alloc, external) = (self.rt.alloc(), self.paths.external.as_str());
        let said = match refused {
            RefusedSource::File { path, text } => {
                refused_script_text(alloc, path.as_str(), text, external)
            }
            RefusedSource::Block { line, text } => {
                refused_block_text(alloc, bench, external, line.as_str(), text)
            }
        };
        self.print(said);
    }
}
