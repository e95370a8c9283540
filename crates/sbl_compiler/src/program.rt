//! Compiles a script to its program.

ghost use Rattle.std.specs.Prelude.{◌≡◌, [], map, OnOk, IfOk, string_bytes};
ghost use Rattle.sbl_ast.specs.Order.{in_order, view_in_mode};
ghost use Rattle.sbl_ast.specs.View.{view_items, view_plain, view_row};
ghost use Rattle.sbl_semantics.specs.Items.{known_in};
ghost use Rattle.sbl_ast.specs.declared.tree.DeclarationKind.TheVariants as kinds;
ghost use Rattle.sbl_compiler.specs.NumberedItems as spec;
ghost use Rattle.sbl_compiler.specs.NumberedItems.{program_by, with_routine};
ghost use Rattle.sbl_program.specs.FoundView.{strings_at};
ghost use Rattle.sbl_compiler.specs.NumberedView.{at_start, names_in, place_in, routine_in, routines_in, view_found, view_names};
ghost use Rattle.sbl_program.specs.ProgramOf.{program_of};

use crate::amongs::amongs_of;
use crate::compiler::{CompileResult, Compiler};
use crate::names::{SymbolTable, names_of};
use crate::place::{Standing, begin_region, end_waiting, left_of, past_row};
use sbl_ast::{ItemInMode, Plain, RowOfCommands, ScriptItem, items_in_order};
use sbl_program::{AmongStrings, Program, Routine};
use std::alloc::{AllocError, Global};

impl Compiler<'_> {
    fn routine_of(&self, body: &RowOfCommands, place: &mut Standing) -> CompileResult<Routine>
        ensures made { IfOk result (λ r. routine_in self.now r ≡ spec.routine_of (names_in self.now) (view_row body.now).0 (view_row body.now).1 (place_in self.now place.old)) }
        ensures following { OnOk result (place_in self.now place.new ≡ spec.past_body (view_row body.now).0 (view_row body.now).1 (place_in self.now place.old)) }
    {
        let following = past_row(self.amongs, body, end_waiting(self.amongs, *place));
        let left = left_of(self.amongs, *place);
        let count = left.saturating_sub(left_of(self.amongs, following));
        let mut inner = begin_region(self.amongs, *place, following);
        *place = following;
        Ok(Routine {
            body: self.row_of(body, &mut inner)?,
            amongs: count,
        })
    }

    fn add_routine(
        &self,
        plain: &Plain,
        place: &mut Standing,
        routines: &mut Vec<Routine>,
    ) -> CompileResult<()>
        ensures made { OnOk result (routines_in self.now routines.new.items ≡ with_routine (names_in self.now) (view_plain plain.now) (place_in self.now place.old) (routines_in self.now routines.old.items)) }
        ensures following { OnOk result (place_in self.now place.new ≡ spec.past_plain (view_plain plain.now) (place_in self.now place.old)) }
    {
        if let Plain::Routine { name: _, body } = plain {
            let routine = self.routine_of(body, place)?;
            routines.push(routine)?;
        }
        Ok(())
    }

    fn routines_of(&self, items: &[ItemInMode]) -> CompileResult<Vec<Routine>>
        ensures { IfOk result (λ v. routines_in self.now v.items ≡ spec.routines_after (names_in self.now) (map view_in_mode items.now) (place_in self.now at_start) []) }
    {
        let mut place = Standing {
            next: 0,
            following: 0,
            waits: false,
        };
        let mut routines = Vec::new(self.alloc);
        for item in items {
            self.add_routine(item.plain, &mut place, &mut routines)?;
        }
        Ok(routines)
    }

    fn program_by(&self, items: &[ItemInMode], external: &str) -> CompileResult<Program>
        ensures { IfOk result (λ p. program_of (strings_at self.now.amongs.now.items) p ≡ program_by (names_in self.now) (map view_in_mode items.now) (map view_found self.now.amongs.now.items) external.now) }
    {
        let groupings = self.numbered_classes(items)?;
        let routines = self.routines_of(items)?;
        Ok(Program {
            integers: self.names.integers.len(),
            booleans: self.names.booleans.len(),
            strings: self.names.strings.len(),
            groupings,
            routines,
            external: self.names.routines.number_of(external),
        })
    }
}

/// A program, and the amongs with the strings for its tables.
#[derive(Drop)]
pub struct Compilation {
    /// The program.
    pub program: Program,
    /// The amongs, in the order of the tables.
    pub amongs: Vec<AmongStrings>,
    /// The names of the routines, in the order of their definitions.
    pub routines: Vec<String>,
    /// The names of the groupings, in the order of their definitions.
    pub groupings: Vec<String>,
}

// Compiles items with these names and amongs. Returns `AllocError` if an allocation fails.
fn compile_named(
    alloc: Global,
    names: SymbolTable,
    amongs: Vec<AmongStrings>,
    items: &[ItemInMode],
    external: &str,
) -> Result<Compilation, AllocError>
    ensures program { IfOk result (λ n. program_of (strings_at n.amongs.items) n.program ≡ program_by (view_names names) (map view_in_mode items.now) (map view_found amongs.items) external.now) }
    ensures routines { IfOk result (λ n. map string_bytes n.routines.items ≡ names.routines) }
    ensures groupings { IfOk result (λ n. map string_bytes n.groupings.items ≡ names.groupings) }
{
    let compiler = Compiler {
        alloc,
        names: &names,
        amongs: &amongs,
    };
    match compiler.program_by(items, external) {
        Ok(program) => {
            let (routines, groupings) = names.into_lists();
            Ok(Compilation {
                program,
                amongs,
                routines,
                groupings,
            })
        }
        Err(refused) => {
            drop(names);
            drop(amongs);
            Err(refused)
        }
    }
}

// Compiles the items of a script, in their order. Returns `AllocError` if an allocation fails.
fn compile_in_order(
    alloc: Global,
    items: &[ItemInMode],
    external: &str,
) -> Result<Compilation, AllocError>
    ensures program { IfOk result (λ n. program_of (strings_at n.amongs.items) n.program ≡ spec.plan_in (map view_in_mode items.now) external.now) }
    ensures routines { IfOk result (λ n. map string_bytes n.routines.items ≡ known_in (map view_in_mode items.now) kinds.Routines) }
    ensures groupings { IfOk result (λ n. map string_bytes n.groupings.items ≡ known_in (map view_in_mode items.now) kinds.Groupings) }
{
    let names = names_of(alloc, items)?;
    match amongs_of(alloc, &names, items) {
        Ok(amongs) => compile_named(alloc, names, amongs, items, external),
        Err(refused) => {
            drop(names);
            Err(refused)
        }
    }
}

/// Compiles a script's items to a program that runs this external. Returns `AllocError` if an allocation fails.
pub fn compile_items(
    alloc: Global,
    items: &[ScriptItem],
    external: &str,
) -> Result<Compilation, AllocError>
    ensures program { IfOk result (λ n. program_of (strings_at n.amongs.items) n.program ≡ spec.numbered_items (view_items items.now) external.now) }
    ensures routines { IfOk result (λ n. map string_bytes n.routines.items ≡ known_in (in_order (view_items items.now)) kinds.Routines) }
    ensures groupings { IfOk result (λ n. map string_bytes n.groupings.items ≡ known_in (in_order (view_items items.now)) kinds.Groupings) }
{
    let in_order = items_in_order(alloc, items)?;
    let compilation = compile_in_order(alloc, &in_order, external);
    drop(in_order);
    compilation
}
