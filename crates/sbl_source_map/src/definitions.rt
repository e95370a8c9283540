//! Definitions of a script: their lines, and the text of one that was typed whole.
ghost use Rattle.std.specs.Prelude.{◌≡◌, ◌∷◌, Bool, IfOk, List, MatchOption, None, OnErr, Some, map, true};
ghost use Rattle.std.specs.Option.{is_some, option_map, option_or};
ghost use Rattle.sbl_print.specs.Canonical.{plain_text};
ghost use Rattle.sbl_script.specs.Edits as edits;
ghost use Rattle.sbl_script.specs.Homes as homes;
ghost use Rattle.sbl_script.specs.ParsedScript.{source_of};
ghost use Rattle.sbl_script.specs.Parts.{view_part};
ghost use Rattle.sbl_ast.specs.Tree as trees;
ghost use Rattle.sbl_ast.specs.View.{view_item, view_items, view_plain};
ghost use Rattle.sbl_source_map.specs.Definitions as spec;
ghost use Rattle.sbl_source_map.specs.HeadReader.{IsAfterWord, IsEndOf, head_words};
ghost use Rattle.sbl_source_map.specs.Heads as heads;

use sbl_print::canonical_text;
use sbl_script::{Part, Plain, Script, ScriptItem};
use sbl_text::{Lexer, ScriptFault, Token};
use sbl_tree_amongs::copy_plain;
use std::alloc::{AllocError, Global};
use std::slice::from_ref;

/// Returns the name of a part and whether it is a routine; `None` if a definition has no text for it.
fn head_of(part: Part<'_>) -> Option<(&str, bool)>
    ensures { MatchOption result (heads.head_of (view_part part.entry) ≡ None) (λ x. heads.head_of (view_part part.entry) ≡ Some (head_words x.0.now x.1)) }
{
    match part {
        Part::Routine(name) => Some((name, true)),
        Part::Grouping(name) => Some((name, false)),
        Part::Among(_, _) => None,
    }
}

/// Returns where a token ends if it is this word.
fn end_if(token: &Token<'_>, word: &str) -> Option<usize>
    ensures { MatchOption result (¬ (token.now.text.now ≡ word.now)) (λ end. (token.now.text.now ≡ word.now) × (end ≡ token.now.end)) }
{
    if token.text == word {
        Some(token.end)
    } else {
        None
    }
}

/// Returns the text after the next token if that token is this word; `None` if it is another one.
fn after_word(lexer: &mut Lexer<'_>, word: &str) -> Result<Option<usize>, AllocError>
    requires { lexer.old.fault ≡ None }
    ensures { IfOk result (λ end. IsAfterWord lexer.old lexer.new word.now end) }
{
    match lexer.next() {
        Ok(Some(token)) => Ok(end_if(&token, word)),
        Ok(None) => Ok(None),
        Err(fault) => match fault {
            ScriptFault::OutOfMemory => Err(AllocError),
            _ => Ok(None),
        },
    }
}

/// Returns where the text after `define NAME as` begins, or after `define NAME` for a grouping; `None` if the text does not
/// begin so.
fn end_of_head(
    alloc: Global,
    name: &str,
    is_routine: bool,
    text: &str,
) -> Result<Option<usize>, AllocError>
    ensures { IfOk result (λ end. IsEndOf (head_words name.now is_routine) text.now end) }
{
    let mut lexer = Lexer::new(alloc, text);
    let Some(_) = after_word(&mut lexer, "define")? else {
        return Ok(None);
    };
    let Some(end) = after_word(&mut lexer, name)? else {
        return Ok(None);
    };
    if is_routine {
        after_word(&mut lexer, "as")
    } else {
        Ok(Some(end))
    }
}

/// Returns the text after the words that a definition of this name begins with, if these are its first tokens.
fn after_head<'a>(
    alloc: Global,
    name: &str,
    is_routine: bool,
    text: &'a str,
) -> Result<&'a str, AllocError>
    ensures { IfOk result (λ rest. heads.IsWithout (Some (head_words name.now is_routine)) text.now rest.now) }
{
    let Some(end) = end_of_head(alloc, name, is_routine, text)? else {
        return Ok(text);
    };
    match text.get(end..) {
        Some(rest) => Ok(rest),
        None => Ok(text),
    }
}

/// Returns the text of a part without `define NAME as`, or `define NAME` for a grouping, if these are its first tokens.
///
/// # Errors
///
/// Returns `AllocError` if an allocation fails.
pub fn without_head<'a>(alloc: Global, part: Part<'_>, text: &'a str) -> Result<&'a str, AllocError>
    ensures { IfOk result (λ rest. heads.IsWithoutHead (view_part part.entry) text.now rest.now) }
{
    match head_of(part) {
        Some((name, is_routine)) => after_head(alloc, name, is_routine, text),
        None => Ok(text),
    }
}

/// Whether an item defines this name, as a routine or as a grouping.
fn defines(plain: &Plain, name: &str) -> bool
    ensures { result ≡ spec.defines_name name.now (view_plain plain.now) }
{
    match plain {
        Plain::Routine { name: defined, .. } => name == defined.as_str(),
        Plain::Grouping(grouping) => name == grouping.name.as_str(),
        _ => false,
    }
}

/// Returns the item as a list of one, or the items of a `backwardmode`.
fn plains_of(item: &ScriptItem) -> &[Plain]
    ensures { (p : trees.Plain → Bool) (is : List trees.Item) → homes.first_passing p (view_item item.now ∷ is) ≡ option_or (homes.first_in p (map view_plain result.now)) (homes.first_passing p is) }
{
    match item {
        ScriptItem::Plain(plain) => from_ref(plain),
        ScriptItem::BackwardMode(plains) => plains.as_slice(),
    }
}

/// Returns the first of these items that defines this name.
fn first_in<'a>(plains: &'a [Plain], name: &str) -> Option<&'a Plain>
    ensures { homes.Finds (λ x. view_plain x.now) result (homes.first_in (spec.defines_name name.now) (map view_plain plains.now)) }
{
    for plain in plains {
        if defines(plain, name) {
            return Some(plain);
        }
    }
    None
}

/// Returns the first definition of this name, in text order; `None` if there is none.
pub fn definition_of<'a>(items: &'a [ScriptItem], name: &str) -> Option<&'a Plain>
    ensures { homes.Finds (λ x. view_plain x.now) result (edits.first_of (spec.defines_name name.now) (view_items items.now)) }
{
    for item in items {
        if let Some(found) = first_in(plains_of(item), name) {
            return Some(found);
        }
    }
    None
}

/// Returns the line of an item that is allowed in a `backwardmode`, as the canonical text of a script has it. Returns
/// `AllocError` if an allocation fails.
fn line_of(alloc: Global, plain: &Plain) -> Result<Vec<u8>, AllocError>
    ensures { IfOk result (λ text. text.items ≡ plain_text (view_plain plain.now)) }
{
    let item = ScriptItem::Plain(copy_plain(alloc, plain)?);
    let text = canonical_text(alloc, from_ref(&item));
    drop(item);
    Ok(text?.into_bytes())
}

/// Returns the line of the definition of this name, as the canonical text of the script has it; `None` if the script defines
/// no routine, external or grouping of this name.
///
/// # Errors
///
/// Returns `AllocError` if an allocation fails. It does so only if there is such a definition.
pub fn definition_text(
    alloc: Global,
    script: &Script,
    name: &str,
) -> Result<Option<Vec<u8>>, AllocError>
    ensures text { IfOk result (λ text. option_map (λ t. t.items) text ≡ spec.definition_text (source_of script.now) name.now) }
    ensures some { OnErr result (is_some (spec.definition_text (source_of script.now) name.now) ≡ true) }
{
    match definition_of(script.items(), name) {
        Some(plain) => Ok(Some(line_of(alloc, plain)?)),
        None => Ok(None),
    }
}
