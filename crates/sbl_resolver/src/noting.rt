//! Collects the occurrences of a script, in text order.

ghost use Rattle.std.specs.Prelude.{◌≡◌, map, OnOk, IfOk, string_bytes};
ghost use Rattle.sbl_ast.specs.View.{view_argument, view_expression, view_entry, view_command, view_among, view_row, view_term, view_plain, view_items};
ghost use Rattle.sbl_ast.specs.inside.ViewParts.{view_factor, view_product, view_sums, view_scales, view_rows, view_others, view_starter, view_groups};
ghost use Rattle.sbl_ast.specs.Order.{view_in_mode};
ghost use Rattle.sbl_resolver.specs.Occurrences as spec;
ghost use Rattle.sbl_resolver.specs.OccurrenceView as walk;
ghost use Rattle.sbl_resolver.specs.OccurrenceView.{Adds, AddsGroups, noted_names, view_occurrences};

use crate::occurrences::{Notice, Occurrence, Site, Use};
use crate::sofar::SoFar;
use sbl_ast::{
    Among, Argument, Command, DeclarationKind, Entry, Expression, Factor, Group, ItemInMode, Mode,
    Naming, NextCommand, NextFactor, NextProduct, Plain, Prefix, Product, RowOfCommands,
    ScriptItem, Simple, Term, items_in_order,
};
use std::alloc::{AllocError, Global};

/// Does the same with each item of a list, up to the first error.
macro_rules! each {
    ($items:expr, $item:ident => $action:expr) => {{
        for $item in $items {
            $action?;
        }
        Ok(())
    }};
}

/// Returns the site of a command after a prefix.
fn site_after(prefix: Prefix, site: Site) -> Site
    ensures { result ≡ walk.site_after prefix site }
{
    match prefix {
        Prefix::Backwards => Site {
            item: site.item,
            mode: Mode::Backward,
        },
        _ => site,
    }
}

fn use_of(naming: Naming) -> Use
    ensures { result ≡ spec.use_of naming }
{
    match naming {
        Naming::SetMark => Use::Integer,
        Naming::Set | Naming::Unset => Use::Boolean,
        Naming::Arrow => Use::String,
    }
}

fn has_starter(among: &Among) -> bool
    ensures { result ≡ walk.has_starter (view_among among.now).0 }
{
    among.starter.is_some()
}

fn is_empty(among: &Among) -> bool
    ensures { result ≡ spec.is_empty (view_among among.now).1 }
{
    has_none(&among.groups, &among.bare)
}

fn has_none(groups: &[Group], bare: &[Entry]) -> bool
    ensures { result ≡ spec.is_empty (view_groups groups.now (map view_entry bare.now)) }
{
    groups.is_empty() && bare.is_empty()
}

// Each of these appends the occurrences of one part of a script to those so far.
impl<'a> SoFar<'a> {
    /// Appends the occurrence of a name, where a literal could be.
    fn note_name(&mut self, how: Use, argument: &'a Argument, site: Site) -> Result<(), AllocError>
        ensures { OnOk result (Adds self.old self.new (spec.noted_name how (view_argument argument.now) site)) }
    {
        match argument {
            Argument::Literal(_) => Ok(()),
            Argument::Name(name) => self.put(Notice::Uses(how, name.as_str()), site),
        }
    }

    /// Appends the occurrences of an arithmetic expression.
    fn note_expression(&mut self, expression: &'a Expression, site: Site) -> Result<(), AllocError>
        ensures { OnOk result (Adds self.old self.new (spec.noted_expression (view_expression expression.now) site)) }
    {
        self.walk_expression(expression, site)?;
        Ok(())
    }

    #[cycle(arithmetic)]
    fn walk_expression(&mut self, expression: &'a Expression, site: Site) -> Result<(), AllocError>
        ensures { OnOk result (Adds self.old self.new (walk.walked_expression (view_expression expression.now) site)) }
    {
        self.note_product(&expression.first, site)?;
        self.note_sums(&expression.others, site)
    }

    #[cycle(arithmetic)]
    fn note_product(&mut self, product: &'a Product, site: Site) -> Result<(), AllocError>
        ensures { OnOk result (Adds self.old self.new (walk.noted_product (view_product product.now) site)) }
    {
        self.note_factor(&product.first, site)?;
        self.note_scales(&product.others, site)
    }

    #[cycle(arithmetic)]
    fn note_factor(&mut self, factor: &'a Factor, site: Site) -> Result<(), AllocError>
        ensures { OnOk result (Adds self.old self.new (walk.noted_factor (view_factor factor.now) site)) }
    {
        match factor {
            Factor::Minus(inner) => self.note_factor(inner, site),
            Factor::Bracket(inner) => self.walk_expression(inner, site),
            Factor::Name(name) => self.put(Notice::Uses(Use::Integer, name.as_str()), site),
            Factor::LenOf(string) => self.note_name(Use::String, string, site),
            Factor::Number(_) | Factor::Constant(_) => Ok(()),
        }
    }

    #[cycle(arithmetic)]
    fn note_sums(&mut self, others: &'a Vec<NextProduct>, site: Site) -> Result<(), AllocError>
        ensures { OnOk result (Adds self.old self.new (walk.noted_sums (view_sums others.now.items) site)) }
    {
        each!(others, added => self.note_product(&added.product, site))
    }

    #[cycle(arithmetic)]
    fn note_scales(&mut self, others: &'a Vec<NextFactor>, site: Site) -> Result<(), AllocError>
        ensures { OnOk result (Adds self.old self.new (walk.noted_scales (view_scales others.now.items) site)) }
    {
        each!(others, scaled => self.note_factor(&scaled.factor, site))
    }

    fn note_entry(&mut self, entry: &'a Entry, number: usize, site: Site) -> Result<(), AllocError>
        ensures { OnOk result (Adds self.old self.new (spec.noted_entry (view_entry entry.now) number site)) }
    {
        self.put(Notice::String(number, entry.string.value.as_slice()), site)?;
        match &entry.condition {
            None => Ok(()),
            Some(name) => self.put(Notice::Uses(Use::Condition, name.as_str()), site),
        }
    }

    fn note_entries(
        &mut self,
        entries: &'a [Entry],
        number: usize,
        site: Site,
    ) -> Result<(), AllocError>
        ensures { OnOk result (Adds self.old self.new (spec.noted_entries (map view_entry entries.now) number site)) }
    {
        each!(entries, entry => self.note_entry(entry, number, site))
    }

    fn note_simple(&mut self, simple: Simple, site: Site) -> Result<(), AllocError>
        ensures { OnOk result (Adds self.old self.new (walk.noted_simple simple site)) }
    {
        match simple {
            Simple::Substring => self.put(Notice::Substring, site),
            _ => Ok(()),
        }
    }

    fn note_prefix(&mut self, prefix: Prefix, site: Site) -> Result<(), AllocError>
        ensures { OnOk result (Adds self.old self.new (walk.noted_prefix prefix site)) }
    {
        match prefix {
            Prefix::Backwards => self.put(Notice::Backwards, site),
            _ => Ok(()),
        }
    }

    /// Appends the occurrences of a command.
    #[cycle(commands)]
    fn note_command(&mut self, command: &'a Command, site: Site) -> Result<(), AllocError>
        ensures { OnOk result (Adds self.old self.new (spec.noted_command (view_command command.now) site)) }
    {
        match command {
            Command::Bracket(rows) => self.note_rows(rows, site),
            Command::Simple(simple) => self.note_simple(*simple, site),
            Command::Literal(_) => Ok(()),
            Command::Name(name) => self.put(Notice::Uses(Use::Command, name.as_str()), site),
            Command::Non {
                with_minus: _,
                name,
            } => self.put(Notice::Uses(Use::Excluded, name.as_str()), site),
            Command::Prefixed(prefix, inner) => {
                self.note_prefix(*prefix, site)?;
                self.note_command(inner, site_after(*prefix, site))
            }
            Command::Counted(_, number, inner) => {
                self.note_expression(number, site)?;
                self.note_command(inner, site)
            }
            Command::Move(_, number) => self.note_expression(number, site),
            Command::Named(naming, name) => {
                self.put(Notice::Uses(use_of(*naming), name.as_str()), site)
            }
            Command::Splice(_, string) => self.note_name(Use::String, string, site),
            Command::SetLimit(first, second) => {
                self.note_command(first, site)?;
                self.note_command(second, site)
            }
            Command::Assign(name, _, number) | Command::Compare(name, _, number) => {
                self.put(Notice::Uses(Use::Integer, name.as_str()), site)?;
                self.note_expression(number, site)
            }
            Command::CompareValues(first, _, second) => {
                self.note_expression(first, site)?;
                self.note_expression(second, site)
            }
            Command::Among(among) => self.note_among(among, site),
        }
    }

    #[cycle(commands)]
    fn note_row(&mut self, row: &'a RowOfCommands, site: Site) -> Result<(), AllocError>
        ensures { OnOk result (Adds self.old self.new (λ sofar. spec.noted_others (view_row row.now).1 site (spec.noted_command (view_row row.now).0 site sofar))) }
    {
        self.note_command(&row.first, site)?;
        self.note_others(&row.others, site)
    }

    #[cycle(commands)]
    fn note_rows(&mut self, rows: &'a Vec<RowOfCommands>, site: Site) -> Result<(), AllocError>
        ensures { OnOk result (Adds self.old self.new (spec.noted_rows (view_rows rows.now.items) site)) }
    {
        each!(rows, row => self.note_row(row, site))
    }

    #[cycle(commands)]
    fn note_others(&mut self, others: &'a Vec<NextCommand>, site: Site) -> Result<(), AllocError>
        ensures { OnOk result (Adds self.old self.new (spec.noted_others (view_others others.now.items) site)) }
    {
        each!(others, joined => self.note_command(&joined.command, site))
    }

    /// Appends the occurrences of an among, of its starter, and then of each string and group.
    #[cycle(commands)]
    fn note_among(&mut self, among: &'a Among, site: Site) -> Result<(), AllocError>
        ensures { OnOk result (Adds self.old self.new (walk.noted_among (view_among among.now).0 (view_among among.now).1 site)) }
    {
        let number = self.next_among();
        let notice = Notice::Among {
            has_starter: has_starter(among),
            is_empty: is_empty(among),
        };
        self.put(notice, site)?;
        if let Some(rows) = &among.starter {
            self.note_rows(rows, site)?;
            self.put(Notice::RegionEnd, site)?;
        }
        self.note_groups(&among.groups, number, site)?;
        self.note_entries(&among.bare, number, site)
    }

    #[cycle(commands)]
    fn note_groups(
        &mut self,
        groups: &'a Vec<Group>,
        number: usize,
        site: Site,
    ) -> Result<(), AllocError>
        ensures { OnOk result (AddsGroups self.old self.new groups.now.items number site) }
    {
        for group in groups {
            self.note_entry(&group.first, number, site)?;
            self.note_entries(&group.others, number, site)?;
            self.note_rows(&group.rows, site)?;
            self.put(Notice::RegionEnd, site)?;
        }
        Ok(())
    }

    fn note_names(
        &mut self,
        kind: DeclarationKind,
        names: &'a Vec<String>,
        site: Site,
    ) -> Result<(), AllocError>
        ensures { OnOk result (Adds self.old self.new (noted_names kind (map string_bytes names.now.items) site)) }
    {
        each!(names, name => self.put(Notice::Declares(kind, name.as_str()), site))
    }

    fn note_terms(&mut self, terms: &'a Vec<Term>, site: Site) -> Result<(), AllocError>
        ensures { OnOk result (Adds self.old self.new (walk.noted_terms (map view_term terms.now.items) site)) }
    {
        each!(terms, term => self.note_name(Use::Term, &term.argument, site))
    }

    fn note_plain(&mut self, plain: &'a Plain, site: Site) -> Result<(), AllocError>
        ensures { OnOk result (Adds self.old self.new (spec.noted_plain (view_plain plain.now) site)) }
    {
        match plain {
            Plain::Declaration(kind, names) => self.note_names(*kind, names, site),
            Plain::StringEscapes(_, _) => Ok(()),
            Plain::StringDef {
                name: _,
                base: _,
                value: _,
            } => Ok(()),
            Plain::Routine { name, body } => {
                self.put(Notice::DefinesRoutine(name.as_str()), site)?;
                self.note_row(body, site)?;
                self.put(Notice::RegionEnd, site)
            }
            Plain::Grouping(grouping) => {
                self.put(Notice::DefinesGrouping(grouping.name.as_str()), site)?;
                self.note_name(Use::Term, &grouping.first, site)?;
                self.note_terms(&grouping.others, site)
            }
        }
    }

    fn note_in_order(&mut self, in_order: &[ItemInMode<'a>]) -> Result<(), AllocError>
        ensures { OnOk result (Adds self.old self.new (spec.noted_items (map view_in_mode in_order.now) 1)) }
    {
        let mut item = 0;
        for one in in_order {
            item += 1;
            self.note_plain(
                one.plain,
                Site {
                    item,
                    mode: one.mode,
                },
            )?;
        }
        Ok(())
    }
}

/// Returns the occurrences of a script, with items counted from 1. Returns `AllocError` if an allocation fails.
pub fn occurrences_of<'a>(
    alloc: Global,
    items: &'a [ScriptItem],
) -> Result<Vec<Occurrence<'a>>, AllocError>
    ensures { IfOk result (λ occurrences. view_occurrences occurrences.items ≡ spec.occurrences_of (view_items items.now)) }
{
    let in_order = items_in_order(alloc, items)?;
    let mut occurrences = SoFar::new(alloc);
    occurrences.note_in_order(&in_order)?;
    Ok(occurrences.into_vec())
}
