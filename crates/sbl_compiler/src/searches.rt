//! Compiles what an among does before the command of the chosen group.

ghost use Rattle.std.specs.Prelude.{◌≡◌, ◌∷◌, ◌++◌, [], map, IfOk};
ghost use Rattle.sbl_compiler.specs.NumberedItems as spec;
ghost use Rattle.sbl_compiler.specs.NumberedView.{node_in, place_in};
ghost use Rattle.sbl_program.specs.Program as programs;
ghost use Rattle.sbl_program.specs.ProgramOf.{commands_of};

use crate::compiler::{CompileResult, Compiler};
use crate::place::{Standing, left_of};
use sbl_ast::Among;
use sbl_program::{Action, Candidate, Node};
use std::alloc::{AllocError, Global};

fn copied_entries(alloc: Global, entries: &[Candidate]) -> Result<Vec<Candidate>, AllocError>
    ensures { IfOk result (λ v. v.items ≡ entries.now) }
{
    let mut copy = Vec::with_capacity(alloc, entries.len())?;
    copy.extend_from_slice(entries)?;
    Ok(copy)
}

// Adds a command after the others. Returns `AllocError` if an allocation fails.
fn with_node(nodes: Vec<Node>, node: Node) -> Result<Vec<Node>, AllocError>
    ensures { IfOk result (λ ns. ns.items ≡ nodes.items ++ node ∷ []) }
{
    let mut more = nodes;
    match more.push(node) {
        Ok(()) => Ok(more),
        Err(refused) => {
            drop(more);
            Err(refused.into())
        }
    }
}

// Returns the number of commands before the command of the chosen group: the search and the starter. If a `substring`
// makes the search, there are none.
fn count_before(waits: bool, among: &Among) -> usize {
    match (waits, &among.starter) {
        (true, _) => 0,
        (false, None) => 1,
        (false, Some(_)) => 2,
    }
}

impl Compiler<'_> {
    /// Returns the number of the next among in its routine.
    pub fn next_number(&self, place: Standing) -> usize
        ensures { result ≡ (spec.next_of (place_in self.now place).coming).number }
    {
        match self.amongs.get(place.next) {
            None => 0,
            Some(found) => found.number,
        }
    }

    // Returns the candidates of the next among, one for each string. Returns `AllocError` if an allocation fails.
    fn next_entries(&self, place: Standing) -> CompileResult<Vec<Candidate>>
        ensures { IfOk result (λ v. v.items ≡ (spec.next_of (place_in self.now place).coming).entries) }
    {
        match self.amongs.get(place.next) {
            None => Ok(Vec::new(self.alloc)),
            Some(found) => copied_entries(self.alloc, &found.entries),
        }
    }

    // Returns the search of the next among. Returns `AllocError` if an allocation fails.
    fn search_next(&self, place: Standing) -> CompileResult<Node>
        ensures { IfOk result (λ n. node_in self.now n ≡ spec.search_next (place_in self.now place)) }
    {
        let entries = self.next_entries(place)?;
        Ok(Node::Search {
            among: self.next_number(place),
            table: place.next,
            entries,
        })
    }

    /// Returns the search for a `substring`: f if its region has no among ahead. Returns `AllocError` if an allocation
    /// fails.
    pub fn search_ahead(&self, place: Standing) -> CompileResult<Node>
        ensures { IfOk result (λ n. node_in self.now n ≡ spec.search_ahead (place_in self.now place)) }
    {
        if place.following < left_of(self.amongs, place) {
            self.search_next(place)
        } else {
            Ok(Node::Act(Action::False))
        }
    }

    /// Returns what an among does before its starter. Returns `AllocError` if an allocation fails.
    pub fn search_first(&self, among: &Among, place: Standing) -> CompileResult<Vec<Node>>
        ensures { IfOk result (λ ns. map (node_in self.now) ns.items ≡ spec.search_first (place_in self.now place) []) }
    {
        let before = Vec::with_capacity(self.alloc, count_before(place.waits, among))?;
        if place.waits {
            return Ok(before);
        }
        match self.search_next(place) {
            Ok(search) => with_node(before, search),
            Err(refused) => {
                drop(before);
                Err(refused)
            }
        }
    }

    /// Adds a starter to what an among at `place` does before it. Returns `AllocError` if an allocation fails.
    pub fn with_starter(
        &self,
        place: Standing,
        before: Vec<Node>,
        starter: Vec<Node>,
    ) -> CompileResult<Vec<Node>>
        requires search { map (node_in self.now) before.items ≡ spec.search_first (place_in self.now place) [] }
        ensures { IfOk result (λ ns. map (node_in self.now) ns.items ≡ spec.search_first (place_in self.now place) (programs.sequence (commands_of (map (node_in self.now) starter.items)) ∷ [])) }
    {
        if place.waits {
            drop(starter);
            Ok(before)
        } else {
            with_node(before, Node::Sequence(starter))
        }
    }
}
