//! `run --as FORM`: the forms, and why there is no list or no line of it.

ghost use Rattle.std.specs.Prelude.{◌≡◌, ◌≢◌, None, Some, codes};

use crate::counts::count_and_word;
use crate::failures::plain;
use snowbench::{ListForm, ListKind};
use std::alloc::{AllocError, Global};

/// The line if there is no such form.
pub const NO_FORM: &str = "snowbench: --as takes synonym, override, tsv or stems";

/// The line if `run` has a form and a file of commands.
pub const NO_COMMANDS: &str = "snowbench: run with --as takes SCRIPT and WORDS, and no COMMANDS";

/// The line if the stems are no list.
pub const NO_STEMS: &str =
    "snowbench: nothing is written: a word is refused, or its stem is more than a line";

/// Returns the list that a form stands for, if there is such a form.
pub fn list_kind(form: &str) -> Option<ListKind>
    ensures synonyms { form.now ≡ codes "synonym" → result ≡ Some (ListKind.Words ListForm.Synonym) }
    ensures overrides { form.now ≡ codes "override" → result ≡ Some (ListKind.Words ListForm.Override) }
    ensures tsv { form.now ≡ codes "tsv" → result ≡ Some (ListKind.Words ListForm.Tsv) }
    ensures stems { form.now ≡ codes "stems" → result ≡ Some ListKind.Stems }
    ensures none { form.now ≢ codes "synonym" → form.now ≢ codes "override" → form.now ≢ codes "tsv" → form.now ≢ codes "stems" → result ≡ None }
{
    match form {
        "synonym" => Some(ListKind::Words(ListForm::Synonym)),
        "override" => Some(ListKind::Words(ListForm::Override)),
        "tsv" => Some(ListKind::Words(ListForm::Tsv)),
        "stems" => Some(ListKind::Stems),
        _ => None,
    }
}

/// Returns how many words have no line in a list of this form. Returns `AllocError` if an allocation fails.
pub fn left_out_text(alloc: Global, count: u64, form: &str) -> Result<String, AllocError> {
    let words = count_and_word(alloc, count, "word is", "words are")?;
    plain(format!(in alloc;
        "snowbench: {words} left out: refused, or with a character that {form} cannot say"
    ))
}
