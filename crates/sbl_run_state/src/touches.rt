//! What a run has touched: a list, and marks beside it, so that a touch costs the same however many there are.

ghost use Rattle.std.specs.Prelude.{◌≡◌, ◌<◌, ℕ, false, [], ◌++◌, ◌∷◌, length, map, nat_eq, nat_le, slice_set, slice_index_or, IfOk, IsTrue, MatchResult};
ghost use Rattle.sbl_run_state.specs.Marks.{mark_at, mark_in};
ghost use Rattle.std.specs.List.{list_any};
ghost use Rattle.sbl_semantics.specs.Touches.{same_touch, with_touch};
ghost use Rattle.sbl_semantics.specs.declared.touch.Touch.TheVariants.{Entered, Searched, Tested};

use sbl_semantics::Touch;
use std::alloc::{AllocError, Global};
use std::marker::Model;

/// Adds a touch whose mark is not of this round, and makes the mark. Returns `AllocError` if an allocation fails or the number is
/// above `u32::MAX`.
macro_rules! add_touch {
    ($self:ident, $marks:ident, $number:ident, $touch:expr) => {{
        if !is_touch_number($number) {
            return Err(AllocError);
        }
        ensure_mark(&mut $self.$marks, $number)?;
        $self.touches.push($touch)?;
        set(&mut $self.$marks, $number, $self.round);
        Ok(())
    }};
}

/// Touches in the order of first touch, each once.
#[derive(Drop)]
pub struct TouchLog {
    touches: Vec<Touch>,
    // The round in which each routine, each of its amongs and each grouping was touched last. They grow if a touch lies
    // past their ends.
    entered: Vec<u32>,
    searched: Vec<Vec<u32>>,
    tested: Vec<u32>,
    round: u32,
}

impl Model for TouchLog {
    ghost use Rattle.std.specs.Prelude.{map, List};
    ghost use Rattle.sbl_semantics.specs.declared.touch.Touch as touch;
    ghost use Rattle.sbl_run_state.specs.Marks.{AreMarked};

    ghost Value = { List touch.Touch };

    ghost view = { λ t. t.touches.items };

    ghost invariant = { λ t. AreMarked t.round t.touches.items t.entered.items (map (λ row. row.items) t.searched.items) t.tested.items };
}

impl TouchLog {
    /// Returns an empty list. Does not allocate.
    pub fn new(alloc: Global) -> TouchLog
        ensures { result ≡ [] }
    {
        TouchLog {
            touches: Vec::new(alloc),
            entered: Vec::new(alloc),
            searched: Vec::new(alloc),
            tested: Vec::new(alloc),
            round: 1,
        }
    }

    /// Returns the touches.
    pub fn touches(&self) -> &[Touch]
        ensures { result.now ≡ self.now }
    {
        &self.touches
    }

    /// Returns whether a touch is in the list, without a search through it.
    pub fn has(&self, touch: Touch) -> bool
        ensures { result ≡ list_any (same_touch touch) self.now }
    {
        match touch {
            Touch::Entered(routine) => is_marked(&self.entered, routine as usize, self.round),
            Touch::Searched(routine, among) => {
                is_marked_in(&self.searched, routine as usize, among as usize, self.round)
            }
            Touch::Tested(grouping) => is_marked(&self.tested, grouping as usize, self.round),
        }
    }

    /// Removes all touches, in time that does not depend on how many there are. The memory is kept, but once in 2^32
    /// calls.
    pub fn clear(&mut self)
        ensures { self.new ≡ [] }
    {
        self.touches.clear();
        if self.round == u32::MAX {
            self.entered.clear();
            self.searched.clear();
            self.tested.clear();
            self.round = 1;
        } else {
            self.round += 1;
        }
    }

    /// Records that the body of a routine is entered. Returns `AllocError` if an allocation fails or the number is
    /// above `u32::MAX`; then nothing is touched.
    #[inline(always)]
    pub fn enter(&mut self, routine: usize) -> Result<(), AllocError>
        ensures { MatchResult result (λ _. self.new ≡ with_touch (Entered routine) self.old) (λ _. self.new ≡ self.old) }
    {
        if is_marked(&self.entered, routine, self.round) {
            return Ok(());
        }
        add_touch!(self, entered, routine, Touch::Entered(routine as u32))
    }

    /// Records that the search of an among is paid. Returns `AllocError` if an allocation fails or a number is above
    /// `u32::MAX`; then nothing is touched.
    #[inline(always)]
    pub fn search(&mut self, routine: usize, among: usize) -> Result<(), AllocError>
        ensures { MatchResult result (λ _. self.new ≡ with_touch (Searched routine among) self.old) (λ _. self.new ≡ self.old) }
    {
        if is_marked_in(&self.searched, routine, among, self.round) {
            return Ok(());
        }
        if !is_touch_number(routine) || !is_touch_number(among) {
            return Err(AllocError);
        }
        ensure_mark_in(&mut self.searched, routine, among)?;
        self.touches
            .push(Touch::Searched(routine as u32, among as u32))?;
        set_in(&mut self.searched, routine, among, self.round);
        Ok(())
    }

    /// Records that the test of a grouping is paid. Returns `AllocError` if an allocation fails or the number is above
    /// `u32::MAX`; then nothing is touched.
    #[inline(always)]
    pub fn test(&mut self, grouping: usize) -> Result<(), AllocError>
        ensures { MatchResult result (λ _. self.new ≡ with_touch (Tested grouping) self.old) (λ _. self.new ≡ self.old) }
    {
        if is_marked(&self.tested, grouping, self.round) {
            return Ok(());
        }
        self.add_tested(grouping)
    }

    // Adds a grouping that is not touched yet. Returns `AllocError` as `test` does.
    #[inline(never)]
    fn add_tested(&mut self, grouping: usize) -> Result<(), AllocError>
        requires { list_any (same_touch (Tested grouping)) self.old ≡ false }
        ensures { MatchResult result (λ _. self.new ≡ self.old ++ (Tested grouping ∷ [])) (λ _. self.new ≡ self.old) }
    {
        add_touch!(self, tested, grouping, Touch::Tested(grouping as u32))
    }
}

// Returns whether touches can store the number of a routine, an among or a grouping: no script has so many that they
// cannot.
#[inline(always)]
fn is_touch_number(number: usize) -> bool
    ensures { result ≡ nat_le number u32.MAX }
{
    number <= u32::MAX as usize
}

// Returns whether a mark is of this round.
#[inline(always)]
fn is_marked(marks: &[u32], i: usize, round: u32) -> bool
    ensures { result ≡ nat_eq (mark_at marks.now i) round }
{
    mark(marks, i) == round
}

// Returns a mark; 0 past the end.
#[inline(always)]
fn mark(marks: &[u32], i: usize) -> u32
    ensures { result ≡ mark_at marks.now i }
{
    match marks.get(i) {
        None => 0,
        Some(mark) => *mark,
    }
}

// Returns whether a mark of a row is of this round.
#[inline(always)]
fn is_marked_in(rows: &[Vec<u32>], i: usize, k: usize, round: u32) -> bool
    ensures { result ≡ nat_eq (mark_in (map (λ row. row.items) rows.now) i k) round }
{
    match rows.get(i) {
        None => 0 == round,
        Some(row) => is_marked(row, k, round),
    }
}

// Sets a mark that exists.
#[inline(always)]
fn set(marks: &mut Vec<u32>, i: usize, round: u32)
    requires { i < length marks.old.items }
    ensures { marks.new.items ≡ slice_set marks.old.items i round }
{
    marks[i] = round;
}

// Does the same for a mark of a row.
#[inline(always)]
fn set_in(rows: &mut Vec<Vec<u32>>, i: usize, k: usize, round: u32)
    requires there { i < length rows.old.items }
    requires in_row { k < length (slice_index_or (map (λ row. row.items) rows.old.items) i []) }
    ensures { map (λ row. row.items) rows.new.items ≡ slice_set (map (λ row. row.items) rows.old.items) i (slice_set (slice_index_or (map (λ row. row.items) rows.old.items) i []) k round) }
{
    set(&mut rows[i], k, round);
}

// Makes sure that a mark exists. Returns `AllocError` if an allocation fails.
#[inline(always)]
fn ensure_mark(marks: &mut Vec<u32>, i: usize) -> Result<(), AllocError>
    ensures same { (j : ℕ) → mark_at marks.new.items j ≡ mark_at marks.old.items j }
    ensures there { IfOk result (λ _. i < length marks.new.items) }
{
    if i < marks.len() {
        return Ok(());
    }
    grow(marks, i)
}

// Makes sure that a mark of a row exists. Returns `AllocError` if an allocation fails.
#[inline(always)]
fn ensure_mark_in(rows: &mut Vec<Vec<u32>>, i: usize, k: usize) -> Result<(), AllocError>
    ensures same { (j l : ℕ) → mark_in (map (λ row. row.items) rows.new.items) j l ≡ mark_in (map (λ row. row.items) rows.old.items) j l }
    ensures there { IfOk result (λ _. (i < length rows.new.items) × (k < length (slice_index_or (map (λ row. row.items) rows.new.items) i []))) }
{
    if has_mark_in(rows, i, k) {
        return Ok(());
    }
    grow_in(rows, i, k)
}

// Returns whether a mark of a row exists.
#[inline(always)]
fn has_mark_in(rows: &[Vec<u32>], i: usize, k: usize) -> bool
    ensures { IsTrue result → (i < length rows.now) × (k < length (slice_index_or (map (λ row. row.items) rows.now) i [])) }
{
    match rows.get(i) {
        None => false,
        Some(row) => k < row.len(),
    }
}

// Grows the marks until this one exists. Returns `AllocError` if an allocation fails.
#[cold]
#[inline(never)]
fn grow(marks: &mut Vec<u32>, i: usize) -> Result<(), AllocError>
    ensures same { (j : ℕ) → mark_at marks.new.items j ≡ mark_at marks.old.items j }
    ensures there { IfOk result (λ _. i < length marks.new.items) }
{
    while marks.len() <= i {
        marks.push(0)?;
    }
    Ok(())
}

// Grows the rows, and one of them, until this mark exists. Returns `AllocError` if an allocation fails.
#[cold]
#[inline(never)]
fn grow_in(rows: &mut Vec<Vec<u32>>, i: usize, k: usize) -> Result<(), AllocError>
    ensures same { (j l : ℕ) → mark_in (map (λ row. row.items) rows.new.items) j l ≡ mark_in (map (λ row. row.items) rows.old.items) j l }
    ensures there { IfOk result (λ _. (i < length rows.new.items) × (k < length (slice_index_or (map (λ row. row.items) rows.new.items) i []))) }
{
    let alloc = *rows.allocator();
    while rows.len() <= i {
        rows.push(Vec::new(alloc))?;
    }
    grow(&mut rows[i], k)
}
