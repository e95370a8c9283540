//! Opens the benches of two scripts over one vocabulary.
ghost use Rattle.std.specs.Prelude.{◌≡◌, IfOk, IfErr};
ghost use Rattle.sbl_bench.specs.KeptRuns.{contents_of};
ghost use Rattle.sbl_batch.specs.Compare as spec;
ghost use Rattle.sbl_batch.specs.Opening.{OpensBoth, OpensOver, ParsesPair};
ghost use Rattle.sbl_script.specs.ParsedScript.{source_of};

use sbl_bench::{Bench, Progress, WordKeys};
use sbl_input::{LoadFault, words_in};
use sbl_io::ServeFault;
use sbl_script::{Script, ScriptFault};
use std::alloc::{AllocError, Global};

/// What is compared: the bytes of two scripts and of a file of words, and the external that is run in both scripts.
#[derive(Clone, Copy, Debug)]
pub struct CompareInput<'a> {
    /// The name of the external.
    pub external: &'a str,
    /// The bytes of the old script.
    pub old: &'a [u8],
    /// The bytes of the new script.
    pub new: &'a [u8],
    /// The bytes of the file of words.
    pub words: &'a [u8],
}

/// Why there is no comparison, or its rows are not written.
#[derive(Clone, Copy, Debug, PartialEq, Eq, Drop)]
pub enum CompareFault {
    /// The fault of the old script.
    Old(ScriptFault),
    /// The fault of the new script.
    New(ScriptFault),
    /// The fault of the words.
    Words(LoadFault),
    /// The rows could not be made or written.
    Rows(ServeFault),
}

impl CompareFault {
    /// Returns the fault without what has it.
    pub fn cause(self) -> LoadFault
        ensures { result ≡ spec.cause_of self }
    {
        match self {
            CompareFault::Old(fault) | CompareFault::New(fault) => LoadFault::Script(fault),
            CompareFault::Words(fault) => fault,
            CompareFault::Rows(fault) => LoadFault::Input(fault),
        }
    }
}

impl From<AllocError> for CompareFault {
    ghost use Rattle.sbl_batch.specs.declared.bench_pair.CompareFault.TheVariants as compare;
    ghost use Rattle.sbl_io.specs.declared.faults.ServeFault.TheVariants as serve;

    ghost from_gives = { λ _ e. e ≡ compare.Rows serve.OutOfMemory };

    fn from(_: AllocError) -> CompareFault {
        CompareFault::Rows(ServeFault::OutOfMemory)
    }
}

impl From<ServeFault> for CompareFault {
    ghost use Rattle.sbl_batch.specs.declared.bench_pair.CompareFault.TheVariants as compare;

    ghost from_gives = { λ fault e. e ≡ compare.Rows fault };

    fn from(fault: ServeFault) -> CompareFault {
        CompareFault::Rows(fault)
    }
}

/// The benches of two scripts over one vocabulary. It has no destructor: call `leak`.
pub struct BenchPair {
    /// The bench of the old script.
    pub old: Bench,
    /// The bench of the new script.
    pub new: Bench,
}

impl BenchPair {
    /// Ends the use of the benches without freeing their memory, as `Bench::leak` does.
    pub fn leak(self) {
        let BenchPair { old, new } = self;
        old.leak();
        new.leak();
    }
}

/// The old and the new script.
struct ScriptPair {
    old: Script,
    new: Script,
}

/// Parses the two scripts, the old one first. Returns the fault of the first that has one.
fn parse_pair(alloc: Global, input: &CompareInput<'_>) -> Result<ScriptPair, CompareFault>
    ensures { ParsesPair input.now result }
{
    let old = match Script::parse(alloc, input.old, input.external) {
        Ok(old) => old,
        Err(fault) => return Err(CompareFault::Old(fault)),
    };
    match Script::parse(alloc, input.new, input.external) {
        Ok(new) => Ok(ScriptPair { old, new }),
        Err(fault) => {
            old.discard();
            Err(CompareFault::New(fault))
        }
    }
}

/// Opens the bench of a script over the words of a file. Returns the fault of the words, or `OutOfMemory`.
fn open_over<P: Progress>(
    alloc: Global,
    keys: WordKeys,
    script: Script,
    words: &[u8],
    progress: &mut P,
) -> Result<Bench, LoadFault>
    ensures { OpensOver (source_of script) words.now result }
{
    let words = match words_in(alloc, words) {
        Ok(words) => words,
        Err(fault) => {
            script.discard();
            return Err(fault);
        }
    };
    match Bench::open_observed(alloc, keys, script, words, progress) {
        Ok(bench) => Ok(bench),
        Err(fault) => Err(LoadFault::Open(fault)),
    }
}

/// Opens the benches of two scripts over the words of a file. Returns the fault of the words, or `OutOfMemory`.
fn open_both<P: Progress>(
    alloc: Global,
    keys: WordKeys,
    scripts: ScriptPair,
    words: &[u8],
    progress: &mut P,
) -> Result<BenchPair, LoadFault>
    ensures { OpensBoth scripts words.now result }
{
    let ScriptPair { old, new } = scripts;
    let old = match open_over(alloc, keys, old, words, progress) {
        Ok(old) => old,
        Err(fault) => {
            new.discard();
            return Err(fault);
        }
    };
    match open_over(alloc, keys, new, words, progress) {
        Ok(new) => Ok(BenchPair { old, new }),
        Err(fault) => {
            old.leak();
            Err(fault)
        }
    }
}

/// Opens the benches of two scripts over the words of a file: one word a line, as `words_in` returns them. Both benches have
/// the limit of 100,000 steps. The keys are those of the hash by which words are found. `progress` sees how many words were run, by the
/// old script and then by the new one.
///
/// # Errors
///
/// Returns the fault of the old script, else that of the new one, else that of the words: of the first line that is too long or
/// not UTF-8, or that of `Bench::open`. Returns `OutOfMemory` as one of these if an allocation fails.
pub fn open_pair<P: Progress>(
    alloc: Global,
    keys: WordKeys,
    input: &CompareInput<'_>,
    progress: &mut P,
) -> Result<BenchPair, CompareFault>
    ensures pair { IfOk result (λ pair. spec.IsPair input.now (contents_of pair.old) (contents_of pair.new)) }
    ensures fault { IfErr result (λ fault. spec.LacksPair input.now fault) }
{
    let scripts = parse_pair(alloc, input)?;
    match open_both(alloc, keys, scripts, input.words, progress) {
        Ok(pair) => Ok(pair),
        Err(fault) => Err(CompareFault::Words(fault)),
    }
}
