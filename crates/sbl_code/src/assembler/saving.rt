//! Commands that save the cursor.

ghost use Rattle.std.specs.Prelude.{◌<◌, ℕ, map, IfOk};
ghost use Rattle.sbl_program.specs.AmongStrings.{Listing};
ghost use Rattle.sbl_code.specs.Performs.{Leaves, PerformsSaved, PerformsWithExits, IsPlace, IsRest, IsRestBefore, wrapped_node};
ghost use Rattle.sbl_program.specs.ProgramOf.{view_next_command};
ghost use Rattle.sbl_code.specs.Flow.{way_does};

use crate::assembler::{Assembler, Exits, Place, Way, more};
use crate::instruction::{Instruction, SLOTS};
use sbl_ast::Joiner;
use sbl_program::{JoinedNode, Node};
use std::alloc::AllocError;
use std::rc::Rc;

impl Assembler {
    // Returns where a command saves the cursor that uses `own` steps, and where it goes on: in this slot, or in instructions
    // that run by themselves if no slot is left.
    pub(super) fn place(
        &mut self,
        cost: u32,
        own: u32,
        slot: usize,
        exits: &Exits,
    ) -> Result<Place, AllocError>
        requires { 0 < own }
        ensures { IfOk result (λ place. IsPlace cost own slot exits.now place) }
    {
        if slot < SLOTS {
            return Ok(Place {
                cost: more(cost, own)?,
                slot,
                exits: exits.copy()?,
                nested: false,
            });
        }
        Ok(Place {
            cost: own - 1,
            slot: 0,
            exits: self.ends()?,
            nested: true,
        })
    }

    // Saves the cursor in that slot before these instructions.
    pub(super) fn save_before(
        &mut self,
        place: &Place,
        inner: Rc<Instruction>,
        cost: u32,
        exits: &Exits,
    ) -> Result<Rc<Instruction>, AllocError>
        ensures { IfOk result (λ made. (tables : ℕ → Listing) → PerformsSaved tables cost exits.now place.now inner.value made.value) }
    {
        let entry = self.save(place.cost, place.slot, inner)?;
        if place.nested {
            self.nest(entry, cost, exits)
        } else {
            Ok(entry)
        }
    }

    // Where a command that saved the cursor goes on after the command in it.
    fn way(&mut self, way: Way, place: &Place) -> Result<Rc<Instruction>, AllocError>
        ensures { IfOk result (λ made. (tables : ℕ → Listing) → Leaves tables place.now.slot place.now.exits.next.value place.now.exits.fail.value made.value (way_does way)) }
    {
        match way {
            Way::Next => Ok(place.exits.next.clone()?),
            Way::Fail => Ok(place.exits.fail.clone()?),
            Way::Back => self.restore(place.slot, &place.exits.next),
        }
    }

    // `not C`, `test C`, `try C` and `do C`.
    #[cycle(command)]
    pub(super) fn wrap(
        &mut self,
        inner: &Node,
        after_t: Way,
        after_f: Way,
        cost: u32,
        slot: usize,
        exits: &Exits,
    ) -> Result<Rc<Instruction>, AllocError>
        ensures { IfOk result (λ made. (tables : ℕ → Listing) → PerformsWithExits tables (wrapped_node tables after_t after_f inner.now) cost slot exits.now made.value) }
    {
        let place = self.place(cost, 1, slot, exits)?;
        let own = Exits {
            next: self.way(after_t, &place)?,
            fail: self.way(after_f, &place)?,
        };
        let entry = self.inner(inner, place.slot, &own)?;
        self.save_before(&place, entry, cost, exits)
    }

    // `do C`. A call is one instruction.
    #[cycle(command)]
    pub(super) fn do_command(
        &mut self,
        inner: &Node,
        cost: u32,
        slot: usize,
        exits: &Exits,
    ) -> Result<Rc<Instruction>, AllocError>
        ensures { IfOk result (λ made. (tables : ℕ → Listing) → PerformsWithExits tables (wrapped_node tables Way.Back Way.Back inner.now) cost slot exits.now made.value) }
    {
        match inner {
            Node::Call(number) => self.do_call(*number, more(cost, 1)?, exits),
            _ => self.wrap(inner, Way::Back, Way::Back, cost, slot, exits),
        }
    }

    // Where a row goes on after its first command.
    #[cycle(command)]
    pub(super) fn rest(
        &mut self,
        others: &[JoinedNode],
        slot: usize,
        exits: &Exits,
    ) -> Result<Exits, AllocError>
        requires { slot < 4 }
        ensures { IfOk result (λ rest. (tables : ℕ → Listing) → IsRest tables slot (map (view_next_command tables) others.now) exits.now rest) }
    {
        let mut rest = exits.copy()?;
        let mut i = others.len();
        while 0 < i {
            i -= 1;
            rest = self.exits_before(&others[i], slot, &rest)?;
        }
        Ok(rest)
    }

    // Where a row goes on before one of its commands, if it goes on like this after it.
    #[cycle(command)]
    pub(super) fn exits_before(
        &mut self,
        other: &JoinedNode,
        slot: usize,
        rest: &Exits,
    ) -> Result<Exits, AllocError>
        requires { slot < 4 }
        ensures { IfOk result (λ made. (tables : ℕ → Listing) → IsRestBefore tables slot other.now rest.now made) }
    {
        let entry = self.inner(&other.command, slot, rest)?;
        let back = self.restore(slot, &entry)?;
        match other.joiner {
            Joiner::Or => Ok(Exits {
                next: rest.next.clone()?,
                fail: back,
            }),
            Joiner::And => Ok(Exits {
                next: back,
                fail: rest.fail.clone()?,
            }),
        }
    }
}
