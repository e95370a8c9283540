//! The words of a vocabulary with what their runs took under a script and a limit.

ghost use Rattle.sbl_rows.specs.Setting.{under};
ghost use Rattle.sbl_script.specs.ParsedScript.{source_of};
ghost use Rattle.sbl_explain.specs.Kept.{AreKept};

use crate::kept_words::KeptWord;
use sbl_script::Script;

/// Words, each with the strings that its run takes under a script and a limit.
#[derive(Drop)]
pub(crate) struct KeptRun {
    pub(crate) script: Script,
    pub(crate) limit: u32,
    pub(crate) words: Vec<KeptWord>,
    pub(crate) ghost kept: { AreKept (under (source_of script) limit) words.items },
}
