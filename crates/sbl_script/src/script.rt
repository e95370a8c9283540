//! A checked script.

ghost use Rattle.std.specs.Prelude.{◌≡◌, ◌⊎◌, ◌≤◌, None, Some, true, [], length, map, IfOk, IfErr};
ghost use Rattle.std.specs.Str.{IsUtf8};
ghost use Rattle.sbl_ast.specs.Places.{AreShallow, placed_plain, places, max_depth, lexemes_of};
ghost use Rattle.sbl_parser.specs.Reading.{IsReadAs};
ghost use Rattle.sbl_ast.specs.Texts as texts;
ghost use Rattle.sbl_ast.specs.View.{view_among, view_argument, view_items, view_plain, view_row, view_term};
ghost use Rattle.sbl_ast.specs.Counts.{count_in_among};
ghost use Rattle.sbl_resolver.specs.Checks.{WellDeclared, fault_of as fault};
ghost use Rattle.sbl_script.specs.SpelledScript.{AreSpelled, IsSpelled};
ghost use Rattle.sbl_text.specs.Directives.{start, Directives};
ghost use Rattle.sbl_text.specs.SpacedTokens.{after_all};
ghost use Rattle.sbl_text.specs.Tokens.{MayEnd, placed_of};
ghost use Rattle.sbl_script.specs.ParsedScript.{source_of};
ghost use Rattle.sbl_script.specs.Reading as spec;
ghost use Rattle.sbl_text.specs.declared.fault.ScriptFault.TheVariants.{OutOfMemory};

use crate::edit_fault::EditFault;
use crate::edits;
use crate::edits::{escapes_before, items_with};
use crate::part::Part;
use sbl_ast::{Among, Argument, Plain, RowOfCommands, ScriptItem, Term};
use sbl_parser::{is_left_out, parse, parse_among, parse_body, parse_terms};
use sbl_print::canonical_text;
use sbl_resolver::{body_in, check};
use sbl_text::{ScriptFault, Token, tokens, tokens_under};
use sbl_tree_amongs::{has_as_many_amongs, nth_among, put_in_place};
use std::alloc::{AllocError, Global};
use std::marker::Model;

/// The most bytes of a script (our own choice).
pub const MAX_SCRIPT: usize = 1_048_576;

/// Returns the position of the first token that this workbench does not support; `None` if it supports all.
fn first_left_out(tokens: &[Token]) -> Option<usize>
    ensures { result ≡ spec.first_left_out (map placed_of tokens.now) }
{
    for token in tokens {
        if is_left_out(token) {
            return Some(token.start);
        }
    }
    None
}

/// Returns the bytes as text. The fault is `ScriptTooLong` or `NotUtf8`.
fn text_of(bytes: &[u8]) -> Result<&str, ScriptFault>
    ensures ok { IfOk result (λ s. (s.now ≡ bytes.now) × (length bytes.now ≤ spec.max_script) × IsUtf8 bytes.now) }
    ensures fault { IfErr result (λ f. (s : Directives) → spec.IsTextFault s bytes.now f) }
{
    if bytes.len() > MAX_SCRIPT {
        return Err(ScriptFault::ScriptTooLong);
    }
    match std::str::from_utf8(bytes) {
        Ok(text) => Ok(text),
        Err(_) => Err(ScriptFault::NotUtf8),
    }
}

/// Returns the tree of these tokens. `end` is the length of their text in bytes.
fn tree_of(alloc: Global, tokens: &[Token], end: usize) -> Result<Vec<ScriptItem>, ScriptFault>
    ensures offered { IfOk result (λ items. spec.first_left_out (map placed_of tokens.now) ≡ None) }
    ensures tree { IfOk result (λ items. IsReadAs texts.script (spec.lexemes (map placed_of tokens.now)) (view_items items.items)) }
    ensures fault { IfErr result (λ f. (f ≡ OutOfMemory) ⊎ spec.IsUnread texts.script (map placed_of tokens.now) end f) }
{
    if let Some(place) = first_left_out(tokens) {
        return Err(ScriptFault::OutOfProfile { place });
    }
    parse(alloc, tokens, end)
}

/// Returns the body that these tokens form, as a routine's. `end` is the length of their text in bytes.
fn body_of_tokens(alloc: Global, tokens: &[Token], end: usize) -> Result<RowOfCommands, ScriptFault>
    ensures offered { IfOk result (λ row. spec.first_left_out (map placed_of tokens.now) ≡ None) }
    ensures tree { IfOk result (λ row. IsReadAs texts.body (spec.lexemes (map placed_of tokens.now)) (view_row row)) }
    ensures fault { IfErr result (λ f. (f ≡ OutOfMemory) ⊎ spec.IsUnread texts.body (map placed_of tokens.now) end f) }
{
    if let Some(place) = first_left_out(tokens) {
        return Err(ScriptFault::OutOfProfile { place });
    }
    parse_body(alloc, tokens, end)
}

/// Returns the among that these tokens form, as one at `depth`. `end` is the length of their text in bytes.
fn among_of_tokens(
    alloc: Global,
    tokens: &[Token],
    end: usize,
    depth: u8,
) -> Result<Among, ScriptFault>
    requires { depth ≤ max_depth }
    ensures offered { IfOk result (λ a. spec.first_left_out (map placed_of tokens.now) ≡ None) }
    ensures tree { IfOk result (λ a. IsReadAs (texts.among depth) (spec.lexemes (map placed_of tokens.now)) (view_among a)) }
    ensures few { IfOk result (λ a. count_in_among (view_among a) ≤ length tokens.now) }
    ensures fault { IfErr result (λ f. (f ≡ OutOfMemory) ⊎ spec.IsUnread (texts.among depth) (map placed_of tokens.now) end f) }
{
    if let Some(place) = first_left_out(tokens) {
        return Err(ScriptFault::OutOfProfile { place });
    }
    parse_among(alloc, tokens, end, depth)
}

/// Returns the terms that these tokens form, as a grouping's. `end` is the length of their text in bytes.
fn terms_of_tokens(
    alloc: Global,
    tokens: &[Token],
    end: usize,
) -> Result<(Argument, Vec<Term>), ScriptFault>
    ensures offered { IfOk result (λ x. spec.first_left_out (map placed_of tokens.now) ≡ None) }
    ensures tree { IfOk result (λ x. IsReadAs texts.terms (spec.lexemes (map placed_of tokens.now)) (view_argument x.0, map view_term x.1.items)) }
    ensures fault { IfErr result (λ f. (f ≡ OutOfMemory) ⊎ spec.IsUnread texts.terms (map placed_of tokens.now) end f) }
{
    if let Some(place) = first_left_out(tokens) {
        return Err(ScriptFault::OutOfProfile { place });
    }
    parse_terms(alloc, tokens, end)
}

/// Returns the script with a text as the body of a routine or the terms of a grouping.
macro_rules! with_part {
    ($self:ident, $alloc:ident, $name:ident, $text:ident; $part:ident, $find:ident, $missing:ident; $read:ident: $parse:ident => $make:ident) => {{
        let Some(_replaced) = edits::$find(&$self.items, $name) else {
            return Err(EditFault::$missing);
        };
        let found = $self.tokens_in($alloc, Part::$part($name), $text)?;
        let $read = $parse($alloc, &found, $text.len())?;
        let new = edits::$make($alloc, $name, $read)?;
        let script = $self.with_definition($alloc, Part::$part($name), new)?;
        Ok(script)
    }};
}

/// A script that has passed all checks, with the name of the external that is run.
#[derive(Drop)]
pub struct Script {
    items: Vec<ScriptItem>,
    external: String,
}

impl Model for Script {
    ghost use Rattle.std.specs.Prelude.{string_bytes};
    ghost use Rattle.std.specs.Coded.{codes};
    ghost use Rattle.sbl_ast.specs.contracts.tree.ScriptItem as e;
    ghost use Rattle.sbl_ast.specs.View.{view_items};
    ghost use Rattle.sbl_script.specs.ParsedScript.{ParsedScript};
    ghost use Rattle.sbl_resolver.specs.Checks.{WellDeclared};
    ghost use Rattle.sbl_ast.specs.Places.{places, AreShallow};
    ghost use Rattle.sbl_script.specs.SpelledScript.{AreSpelled};

    ghost Value = { ParsedScript };

    ghost coded = { Prim.hlevel (codes, e.the_row.coded) };

    ghost view = { λ s. record { items = s.items.items; external = string_bytes s.external } };

    ghost invariant = { λ s. WellDeclared (view_items s.items.items) (string_bytes s.external) × AreShallow (places (view_items s.items.items)) × AreSpelled (view_items s.items.items) };
}

impl Script {
    ghost use Rattle.std.specs.Prelude.{Err, string_bytes};
    ghost use Rattle.sbl_ast.specs.Places.{places, AreShallow};
    ghost use Rattle.sbl_ast.specs.Texts.{places_in};
    ghost use Rattle.sbl_script.specs.ParsedScript.{body_of};
    ghost use Rattle.sbl_print.specs.Canonical.{canonical};
    ghost use Rattle.sbl_script.specs.Reading.{HasTokens};
    ghost use Rattle.sbl_ast.specs.NamedParts.{Among as among, Grouping, Routine};
    ghost use Rattle.sbl_script.specs.Edits.{IsEditFault, IsEdited, changes, items_with, text_for};
    ghost use Rattle.sbl_script.specs.Homes.{state_reached};
    ghost use Rattle.sbl_script.specs.Parts.{view_part};

    /// Checks a tree and returns its script, or the fault of the first check that fails.
    fn check_tree(
        alloc: Global,
        items: Vec<ScriptItem>,
        external: &str,
    ) -> Result<Script, ScriptFault>
        requires shallow { AreShallow (places (view_items items.items)) }
        requires spelled { AreSpelled (view_items items.items) }
        ensures tree { IfOk result (λ s. source_of s ≡ record { items = view_items items.items; external = external.now }) }
        ensures well_declared { IfOk result (λ s. WellDeclared (view_items items.items) external.now) }
        ensures fault { IfErr result (λ f. (f ≡ OutOfMemory) ⊎ (fault (view_items items.items) external.now ≡ Some f)) }
    {
        check(alloc, &items, external)?;
        let external = String::from_str(alloc, external)?;
        Ok(Script { items, external })
    }

    /// Parses a script: `bytes` is UTF-8 text of at most 1,048,576 bytes, and `external` names the external that is
    /// run.
    ///
    /// Returns the first fault in this order: the text is too long; it is not UTF-8; it has a part that is no token; it
    /// has a token that this workbench does not support; a token cannot follow those before it or is too deep; a check
    /// fails. Returns `OutOfMemory` if an allocation fails.
    pub fn parse(alloc: Global, bytes: &[u8], external: &str) -> Result<Script, ScriptFault>
        ensures script { IfOk result (λ s. spec.IsScriptOf bytes.now external.now (source_of s)) }
        ensures fault { IfErr result (λ f. (f ≡ OutOfMemory) ⊎ spec.IsFaultOf bytes.now external.now f) }
    {
        let text = text_of(bytes)?;
        let found = tokens(alloc, text)?;
        let items = tree_of(alloc, &found, text.len())?;
        Script::check_tree(alloc, items, external)
    }

    /// Returns the script with `text` in place of a part. This script does not change.
    ///
    /// The text of a routine is one row of the grammar, that of an among one whole `among ( .. )`, and that of a grouping what
    /// follows the name in its definition. It is read with what the items before the definition set in force, a routine at
    /// depth 1 and an among at the depth of the one that it replaces.
    ///
    /// Returns the first of these errors: `NoRoutine` or `NoGrouping` if there is no such definition, and `NoAmong` if the
    /// routine has no among with this number; these do not allocate. `Script` with the first fault of the text, with its
    /// position in the text, or with the fault of the check that fails in the script with the text. `AmongCount` if the new
    /// among and the old one hold different numbers of amongs, counting those inside them.
    pub fn with(&self, alloc: Global, part: Part<'_>, text: &str) -> Result<Script, EditFault>
        ensures script { IfOk result (λ s. IsEdited (source_of self.now) (view_part part.entry) text.now (source_of s)) }
        ensures fault { IfErr result (λ f. (f ≡ EditFault.OutOfMemory) ⊎ IsEditFault (source_of self.now) (view_part part.entry) text.now f) }
        ensures missing { (f : EditFault) → text_for (source_of self.now).items (view_part part.entry) ≡ Err f → result ≡ Err f }
    {
        match part {
            Part::Routine(name) => self.with_routine(alloc, name, text),
            Part::Among(name, k) => self.with_among(alloc, name, k, text),
            Part::Grouping(name) => self.with_grouping(alloc, name, text),
        }
    }

    /// Returns the script with `text` as the body of the routine `name`, as `with` does.
    pub fn with_routine(&self, alloc: Global, name: &str, text: &str) -> Result<Script, EditFault>
        ensures script { IfOk result (λ s. IsEdited (source_of self.now) (Routine name.now) text.now (source_of s)) }
        ensures fault { IfErr result (λ f. (f ≡ EditFault.OutOfMemory) ⊎ IsEditFault (source_of self.now) (Routine name.now) text.now f) }
        ensures missing { (f : EditFault) → text_for (source_of self.now).items (Routine name.now) ≡ Err f → result ≡ Err f }
    {
        with_part!(self, alloc, name, text; Routine, routine_of, NoRoutine; body: body_of_tokens => routine)
    }

    /// Returns the script with `text` in place of the `k`-th among of a routine, as `with` does. Amongs are counted from 1 in
    /// the order of the words `among`.
    pub fn with_among(
        &self,
        alloc: Global,
        routine: &str,
        k: u64,
        text: &str,
    ) -> Result<Script, EditFault>
        ensures script { IfOk result (λ s. IsEdited (source_of self.now) (among routine.now k) text.now (source_of s)) }
        ensures fault { IfErr result (λ f. (f ≡ EditFault.OutOfMemory) ⊎ IsEditFault (source_of self.now) (among routine.now k) text.now f) }
        ensures missing { (f : EditFault) → text_for (source_of self.now).items (among routine.now k) ≡ Err f → result ≡ Err f }
    {
        let Some(body) = edits::routine_of(&self.items, routine) else {
            return Err(EditFault::NoRoutine);
        };
        let Some((depth, replaced)) = nth_among(body, k) else {
            return Err(EditFault::NoAmong);
        };
        let found = self.tokens_in(alloc, Part::Among(routine, k), text)?;
        let among = among_of_tokens(alloc, &found, text.len(), depth)?;
        let body = put_in_place(alloc, body, k, &among)?;
        let new = edits::routine(alloc, routine, body)?;
        let script = self.with_definition(alloc, Part::Among(routine, k), new)?;
        if has_as_many_amongs(&among, replaced) {
            Ok(script)
        } else {
            Err(EditFault::AmongCount)
        }
    }

    /// Returns the script with `text` as the terms of the grouping `name`, as `with` does.
    pub fn with_grouping(&self, alloc: Global, name: &str, text: &str) -> Result<Script, EditFault>
        ensures script { IfOk result (λ s. IsEdited (source_of self.now) (Grouping name.now) text.now (source_of s)) }
        ensures fault { IfErr result (λ f. (f ≡ EditFault.OutOfMemory) ⊎ IsEditFault (source_of self.now) (Grouping name.now) text.now f) }
        ensures missing { (f : EditFault) → text_for (source_of self.now).items (Grouping name.now) ≡ Err f → result ≡ Err f }
    {
        with_part!(self, alloc, name, text; Grouping, grouping_of, NoGrouping; terms: terms_of_tokens => grouping)
    }

    /// Returns the tokens of a text, read where the definition that the part is in begins.
    fn tokens_in<'a>(
        &self,
        alloc: Global,
        part: Part<'_>,
        text: &'a str,
    ) -> Result<Vec<Token<'a>>, ScriptFault>
        ensures tokens { IfOk result (λ ts. HasTokens (state_reached (changes (view_part part.entry)) (source_of self.now).items) text.now (map placed_of ts.items)) }
        ensures fault { IfErr result (λ f. (f ≡ OutOfMemory) ⊎ spec.IsTextFault (state_reached (changes (view_part part.entry)) (source_of self.now).items) text.now f) }
    {
        let text = text_of(text.as_bytes())?;
        let escapes = escapes_before(alloc, &self.items, part)?;
        tokens_under(alloc, text, escapes)
    }

    /// Returns the script with `new` in place of the first definition that the part may be in, and drops `new`: by a call, since
    /// the prover takes a tree apart on each path that drops it without one.
    fn with_definition(
        &self,
        alloc: Global,
        part: Part<'_>,
        new: Plain,
    ) -> Result<Script, ScriptFault>
        requires same { changes (view_part part) (view_plain new) ≡ true }
        requires shallow { AreShallow (placed_plain (view_plain new) []) }
        requires spelled { IsSpelled (state_reached (changes (view_part part)) (source_of self.now).items) (view_plain new) }
        ensures items { IfOk result (λ s. (source_of s).items ≡ items_with (changes (view_part part.entry)) (view_plain new) (source_of self.now).items) }
        ensures external { IfOk result (λ s. (source_of s).external ≡ (source_of self.now).external) }
        ensures well_declared { IfOk result (λ s. WellDeclared (source_of s).items (source_of s).external) }
        ensures fault { IfErr result (λ f. (f ≡ OutOfMemory) ⊎ (fault (items_with (changes (view_part part.entry)) (view_plain new) (source_of self.now).items) (source_of self.now).external ≡ Some f)) }
    {
        let script = self.with_plain(alloc, part, &new);
        drop(new);
        script
    }

    /// Returns the script with `new` in place of the first definition that the part may be in.
    fn with_plain(&self, alloc: Global, part: Part<'_>, new: &Plain) -> Result<Script, ScriptFault>
        requires same { changes (view_part part) (view_plain new.now) ≡ true }
        requires shallow { AreShallow (placed_plain (view_plain new.now) []) }
        requires spelled { IsSpelled (state_reached (changes (view_part part)) (source_of self.now).items) (view_plain new.now) }
        ensures items { IfOk result (λ s. (source_of s).items ≡ items_with (changes (view_part part.entry)) (view_plain new.now) (source_of self.now).items) }
        ensures external { IfOk result (λ s. (source_of s).external ≡ (source_of self.now).external) }
        ensures well_declared { IfOk result (λ s. WellDeclared (source_of s).items (source_of s).external) }
        ensures fault { IfErr result (λ f. (f ≡ OutOfMemory) ⊎ (fault (items_with (changes (view_part part.entry)) (view_plain new.now) (source_of self.now).items) (source_of self.now).external ≡ Some f)) }
    {
        let items = items_with(alloc, &self.items, part, new)?;
        Script::check_tree(alloc, items, self.external())
    }

    /// Returns the canonical text of the script (our own choice). Each item is a line of its tokens, with one space
    /// between two tokens. A `backwardmode` is a line `backwardmode (`, its items, and a line `)`. Literals keep their
    /// spelling; numbers are written by their value. If the text has at most 1,048,576 bytes, `parse` reads it as this
    /// script (law `canonical_is_read`).
    ///
    /// Returns `AllocError` if an allocation fails.
    pub fn print(&self, alloc: Global) -> Result<String, AllocError>
        ensures { IfOk result (λ text. string_bytes text ≡ canonical (source_of self.now).items) }
    {
        canonical_text(alloc, &self.items)
    }

    /// Returns the items, in text order.
    pub fn items(&self) -> &[ScriptItem]
        ensures { result.now ≡ self.now.items }
    {
        self.items.as_slice()
    }

    /// Returns the name of the external that is run.
    pub fn external(&self) -> &str
        ensures { result.now ≡ self.now.external }
    {
        self.external.as_str()
    }

    /// Returns the body of the external that is run.
    pub fn body(&self) -> &RowOfCommands
        ensures { body_of (source_of self.now) ≡ Some (view_row result.now) }
    {
        match body_in(&self.items, self.external.as_str()) {
            Some(body) => body,
            None => unreachable!(),
        }
    }

    /// Frees the script, as a drop does. A crate that drops a tree has to prove all destructors of trees again; a crate
    /// that calls this instead does not. Does not allocate.
    pub fn discard(self) {}
}

/// A script is well declared, so nothing that uses it has to check it again.
pub fn is_well_declared(script: &Script)
    ensures { WellDeclared (source_of script.now).items (source_of script.now).external }
{
    let _ = &script.external;
}

/// No token of a script is deeper than 64.
pub fn is_shallow(script: &Script)
    ensures { AreShallow (places (source_of script.now).items) }
{
    let _ = &script.external;
}

/// Each token of a script can be written in some text with the escapes in force there, and the text may end after the
/// last one.
pub fn is_spelled(script: &Script)
    ensures spelled { AreSpelled (source_of script.now).items }
    ensures ends { MayEnd (after_all start (lexemes_of (source_of script.now).items)) }
{
    let _ = &script.external;
}
