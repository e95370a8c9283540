//! Lists the amongs of a script in the order of their words `among`.

ghost use Rattle.std.specs.Prelude.{◌≡◌, ◌∷◌, ◌++◌, [], List, map, OnOk, IfOk};
ghost use Rattle.sbl_ast.specs.Order.{view_in_mode};
ghost use Rattle.sbl_ast.specs.View.{view_command, view_row, view_among, view_entry, view_plain};
ghost use Rattle.sbl_ast.specs.inside.ViewParts.{view_rows, view_others, view_groups, view_name};
ghost use Rattle.sbl_ast.specs.Tree as trees;
ghost use Rattle.sbl_ast.specs.Tree.{among_};
ghost use Rattle.sbl_compiler.specs.NumberedAmongs as spec;
ghost use Rattle.sbl_compiler.specs.NumberedAmongs.{found_after, found_command, found_groups, found_of, found_others, found_plain, found_rows};
ghost use Rattle.sbl_program.specs.FoundView.{texts};
ghost use Rattle.sbl_compiler.specs.NumberedView.{AddsGroups, Finds, found_row, view_found, view_names};
ghost use Rattle.sbl_semantics.specs.Landmarks.{mode_under as spec_mode_after};

use crate::compiler::CompileResult;
use crate::names::SymbolTable;
use sbl_ast::{
    Among, Command, Entry, Group, ItemInMode, Mode, NextCommand, Plain, Prefix, RowOfCommands,
};
use sbl_program::{AmongStrings, Candidate};
use std::alloc::Global;

// Returns a copy of a string. Returns `AllocError` if an allocation fails.
fn copy_string(alloc: Global, string: &[char]) -> CompileResult<Vec<char>>
    ensures { IfOk result (λ v. v.items ≡ string.now) }
{
    string.to_vec(alloc)
}

// Returns the number of strings of an among. Only room for them depends on it.
fn count_of(groups: &Vec<Group>, bare: &Vec<Entry>) -> usize {
    let mut count = bare.len();
    for group in groups {
        count = count.saturating_add(1).saturating_add(group.others.len());
    }
    count
}

fn add_string(alloc: Global, entry: &Entry, strings: &mut Vec<Vec<char>>) -> CompileResult<()>
    ensures { OnOk result (texts strings.new.items ≡ spec.strings_in (view_entry entry.now ∷ []) (texts strings.old.items)) }
{
    strings.push(copy_string(alloc, &entry.string.value)?)?;
    Ok(())
}

fn add_strings(
    alloc: Global,
    entries: &Vec<Entry>,
    strings: &mut Vec<Vec<char>>,
) -> CompileResult<()>
    ensures { OnOk result (texts strings.new.items ≡ spec.strings_in (map view_entry entries.now.items) (texts strings.old.items)) }
{
    for entry in entries {
        add_string(alloc, entry, strings)?;
    }
    Ok(())
}

fn strings_of(
    alloc: Global,
    groups: &Vec<Group>,
    bare: &Vec<Entry>,
) -> CompileResult<Vec<Vec<char>>>
    ensures { IfOk result (λ v. texts v.items ≡ spec.strings_after (view_groups groups.now.items (map view_entry bare.now.items)) []) }
{
    let mut strings = Vec::with_capacity(alloc, count_of(groups, bare))?;
    for group in groups {
        add_string(alloc, &group.first, &mut strings)?;
        add_strings(alloc, &group.others, &mut strings)?;
    }
    add_strings(alloc, bare, &mut strings)?;
    Ok(strings)
}

fn condition_of(names: &SymbolTable, condition: &Option<String>) -> Option<usize>
    ensures { result ≡ spec.condition_of (view_names names.now) (view_name condition.now) }
{
    match condition {
        None => None,
        Some(name) => Some(names.routines.number_of(name.as_str())),
    }
}

fn add_entry(
    names: &SymbolTable,
    group: usize,
    entry: &Entry,
    entries: &mut Vec<Candidate>,
) -> CompileResult<()>
    ensures { OnOk result (entries.new.items ≡ spec.entries_in (view_names names.now) group (view_entry entry.now ∷ []) entries.old.items) }
{
    entries.push(Candidate {
        condition: condition_of(names, &entry.condition),
        group,
        length: entry.string.value.len(),
    })?;
    Ok(())
}

fn add_entries(
    names: &SymbolTable,
    group: usize,
    more: &Vec<Entry>,
    entries: &mut Vec<Candidate>,
) -> CompileResult<()>
    ensures { OnOk result (entries.new.items ≡ spec.entries_in (view_names names.now) group (map view_entry more.now.items) entries.old.items) }
{
    for entry in more {
        add_entry(names, group, entry, entries)?;
    }
    Ok(())
}

fn add_group_entries(
    names: &SymbolTable,
    groups: &Vec<Group>,
    entries: &mut Vec<Candidate>,
) -> CompileResult<()>
    ensures { OnOk result (AddsGroups (view_names names.now) groups.now.items entries.old.items entries.new.items) }
{
    for (number, group) in groups.iter().enumerate() {
        add_entry(names, number, &group.first, entries)?;
        add_entries(names, number, &group.others, entries)?;
    }
    Ok(())
}

fn entries_of(
    alloc: Global,
    names: &SymbolTable,
    groups: &Vec<Group>,
    bare: &Vec<Entry>,
) -> CompileResult<Vec<Candidate>>
    ensures { IfOk result (λ v. v.items ≡ spec.entries_after (view_names names.now) 0 (view_groups groups.now.items (map view_entry bare.now.items)) []) }
{
    let mut entries = Vec::with_capacity(alloc, count_of(groups, bare))?;
    add_group_entries(names, groups, &mut entries)?;
    add_entries(names, groups.len(), bare, &mut entries)?;
    Ok(entries)
}

// Returns the mode of a command after a prefix.
fn mode_after(prefix: Prefix, mode: Mode) -> Mode
    ensures { result ≡ spec_mode_after prefix mode }
{
    match prefix {
        Prefix::Backwards => Mode::Backward,
        Prefix::Not
        | Prefix::Test
        | Prefix::Try
        | Prefix::Do
        | Prefix::Fail
        | Prefix::Repeat
        | Prefix::GoTo
        | Prefix::GoPast => mode,
    }
}

/// The part of a script in which amongs are looked for.
#[derive(Clone, Copy)]
struct Finder<'a> {
    alloc: Global,
    names: &'a SymbolTable,
    // The number of amongs before the routine.
    first: usize,
    mode: Mode,
}

impl<'a> Finder<'a> {
    // Returns the finder for a command after a prefix.
    fn following(&self, prefix: Prefix) -> Finder<'a>
        ensures { result ≡ record self.now { mode = spec_mode_after prefix self.now.mode } }
    {
        Finder {
            mode: mode_after(prefix, self.mode),
            ..*self
        }
    }

    // Adds an among after the others, before those inside it. Returns `AllocError` if an allocation fails.
    fn add_among(&self, among: &Among, all: &mut Vec<AmongStrings>) -> CompileResult<()>
        ensures { OnOk result (Finds all.old.items all.new.items (λ fs. fs ++ found_of (view_names self.now.names.now) self.now.first self.now.mode (view_among among.now).1 fs ∷ [])) }
    {
        let number = all.len().saturating_sub(self.first);
        let strings = strings_of(self.alloc, &among.groups, &among.bare)?;
        let entries = entries_of(self.alloc, self.names, &among.groups, &among.bare)?;
        all.push(AmongStrings {
            number,
            mode: self.mode,
            strings,
            entries,
        })?;
        Ok(())
    }

    // Adds the amongs of a command. Returns `AllocError` if an allocation fails.
    #[cycle(finding)]
    fn find(&self, command: &Command, all: &mut Vec<AmongStrings>) -> CompileResult<()>
        ensures { OnOk result (Finds all.old.items all.new.items (found_command (view_names self.now.names.now) self.now.first self.now.mode (view_command command.now))) }
    {
        match command {
            Command::Bracket(rows) => self.find_rows(rows, all),
            Command::Prefixed(prefix, inner) => self.following(*prefix).find(inner, all),
            Command::Counted(_, _, inner) => self.find(inner, all),
            Command::SetLimit(limit, inner) => {
                self.find(limit, all)?;
                self.find(inner, all)
            }
            Command::Among(among) => self.find_among(among, all),
            _ => Ok(()),
        }
    }

    #[cycle(finding)]
    fn find_rows(&self, rows: &Vec<RowOfCommands>, all: &mut Vec<AmongStrings>) -> CompileResult<()>
        ensures { OnOk result (Finds all.old.items all.new.items (found_rows (view_names self.now.names.now) self.now.first self.now.mode (view_rows rows.now.items))) }
    {
        for row in rows {
            self.find_row(row, all)?;
        }
        Ok(())
    }

    #[cycle(finding)]
    fn find_row(&self, row: &RowOfCommands, all: &mut Vec<AmongStrings>) -> CompileResult<()>
        ensures { OnOk result (Finds all.old.items all.new.items (found_row (view_names self.now.names.now) self.now.first self.now.mode (view_row row.now))) }
    {
        self.find(&row.first, all)?;
        self.find_others(&row.others, all)
    }

    #[cycle(finding)]
    fn find_others(
        &self,
        others: &Vec<NextCommand>,
        all: &mut Vec<AmongStrings>,
    ) -> CompileResult<()>
        ensures { OnOk result (Finds all.old.items all.new.items (found_others (view_names self.now.names.now) self.now.first self.now.mode (view_others others.now.items))) }
    {
        for joined in others {
            self.find(&joined.command, all)?;
        }
        Ok(())
    }

    #[cycle(finding)]
    fn find_among(&self, among: &Among, all: &mut Vec<AmongStrings>) -> CompileResult<()>
        ensures { OnOk result (Finds all.old.items all.new.items (found_command (view_names self.now.names.now) self.now.first self.now.mode (among_ (view_among among.now).0 (view_among among.now).1))) }
    {
        self.add_among(among, all)?;
        if let Some(rows) = &among.starter {
            self.find_rows(rows, all)?;
        }
        self.find_groups(&among.groups, all)
    }

    #[cycle(finding)]
    fn find_groups(&self, groups: &Vec<Group>, all: &mut Vec<AmongStrings>) -> CompileResult<()>
        ensures { OnOk result ((e : List trees.Entry) → Finds all.old.items all.new.items (found_groups (view_names self.now.names.now) self.now.first self.now.mode (view_groups groups.now.items e))) }
    {
        for group in groups {
            self.find_rows(&group.rows, all)?;
        }
        Ok(())
    }
}

// Adds the amongs of an item. Returns `AllocError` if an allocation fails.
fn find_plain(
    alloc: Global,
    names: &SymbolTable,
    item: &ItemInMode,
    all: &mut Vec<AmongStrings>,
) -> CompileResult<()>
    ensures { OnOk result (Finds all.old.items all.new.items (found_plain (view_names names.now) item.now.mode (view_plain item.now.plain.now))) }
{
    if let Plain::Routine { name: _, body } = item.plain {
        let finder = Finder {
            alloc,
            names,
            first: all.len(),
            mode: item.mode,
        };
        finder.find_row(body, all)?;
    }
    Ok(())
}

/// Returns the amongs of a script. Returns `AllocError` if an allocation fails.
pub fn amongs_of(
    alloc: Global,
    names: &SymbolTable,
    items: &[ItemInMode],
) -> CompileResult<Vec<AmongStrings>>
    ensures { IfOk result (λ v. map view_found v.items ≡ found_after (view_names names.now) (map view_in_mode items.now) []) }
{
    let mut all = Vec::new(alloc);
    for item in items {
        find_plain(alloc, names, item, &mut all)?;
    }
    Ok(all)
}
