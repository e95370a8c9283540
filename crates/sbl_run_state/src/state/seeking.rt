//! Tests of groupings: one, and `goto` and `gopast` of one.

ghost use Rattle.std.specs.Prelude.{◌≡◌, ◌<◌, ◌≤◌, map, suc, IfOk, Some};
ghost use Rattle.std.specs.List.{position};
ghost use Rattle.sbl_program.specs.CharacterClasses.{members};
ghost use Rattle.sbl_program.specs.Terms.{class_at};
ghost use Rattle.sbl_semantics.specs.Control.{pay_first, seeks};
ghost use Rattle.sbl_run_state.specs.Endings.{Follows};
ghost use Rattle.sbl_program.specs.Actions.{test_grouping};
ghost use Rattle.sbl_run_state.specs.Seeking.{count_before, mode_if, seek_ending};
ghost use Rattle.sbl_semantics.specs.Fitting.{read_as};
ghost use Rattle.sbl_semantics.specs.Touches.{with_touch};
ghost use Rattle.sbl_semantics.specs.declared.touch.Touch.TheVariants.{Tested};
ghost use Rattle.sbl_semantics.specs.inside.MoveParts.{next_is};
ghost use Rattle.sbl_semantics.specs.State.{Signals, ahead, move_cursor, room};

use crate::halt::Halt;
use crate::state::State;
use sbl_ast::Mode;
use sbl_program::CharacterClass;

impl State {
    /// Tests the grouping with this number, after its step is paid: records the touch, and moves over one character that is
    /// in the class, or over one that is not, as `wanted` says. Returns `OutOfMemory` if an allocation fails or the
    /// number is above `u32::MAX`.
    #[inline(always)]
    pub fn take_grouping(
        &mut self,
        mode: Mode,
        classes: &[CharacterClass],
        number: usize,
        wanted: bool,
    ) -> Result<bool, Halt>
        ensures follows { Follows result self.new (test_grouping wanted (class_at (map members classes.now) number) number mode self.old) }
        ensures same_steps { IfOk result (λ _. self.new.steps ≡ self.old.steps) }
    {
        self.touch_grouping(number)?;
        Ok(self.take_one(mode, classes, number, wanted))
    }

    // Moves the cursor by n characters, which are ahead, and leaves this many steps.
    #[inline(always)]
    fn pass_over(&mut self, mode: Mode, n: usize, steps: u32)
        requires { n ≤ room mode self.old }
        ensures { self.new ≡ record (move_cursor mode n self.old) { steps = steps } }
    {
        self.advance(mode, n);
        self.steps = steps;
    }

    // Ends a search whose first test that signals t is after this many of the characters ahead, and returns true; if it
    // is after all of them, no test signals t, and it returns false. Each test uses a step.
    #[inline(always)]
    fn seek_over(&mut self, past: bool, mode: Mode, before: usize, len: usize) -> bool
        requires enough { before < self.old.steps }
        requires all { len ≡ room mode self.old }
        requires there { before ≤ len }
        ensures { seek_ending past mode self.old.steps before (room mode self.old) self.old ≡ Signals result self.new }
    {
        let steps = self.steps() - before as u32 - 1;
        if before == len {
            self.pass_over(mode, before, steps);
            return false;
        }
        if past {
            self.pass_over(mode, before + 1, steps);
        } else {
            self.pass_over(mode, before, steps);
        }
        true
    }

    // Does what `seek_one` does, if the grouping is touched already. Each mode has its own code, without a test of the mode.
    #[inline(never)]
    fn seek_touched<const FORWARD: bool>(
        &mut self,
        past: bool,
        classes: &[CharacterClass],
        number: usize,
        wanted: bool,
    ) -> Result<bool, Halt>
        requires { with_touch (Tested number) self.old.touched ≡ self.old.touched }
        ensures follows { Follows result self.new (seeks (suc self.old.steps) past (pay_first (test_grouping wanted (class_at (map members classes.now) number) number)) (mode_if FORWARD) self.old) }
        ensures no_more { IfOk result (λ _. self.new.steps ≤ self.old.steps) }
    {
        let mode = mode_if(FORWARD);
        let part = self.part_ahead(mode);
        let len = part.len();
        let before = count_before(mode, part, classes, number, wanted);
        let steps = self.steps as usize;
        if steps <= before {
            self.pass_over(mode, steps, 0);
            return Err(Halt::Steps);
        }
        Ok(self.seek_over(past, mode, before, len))
    }

    /// Tests the grouping with this number at the cursor and further on, up to the first t. The cursor stays after the
    /// match if `past`, and else goes before it. The first test touches the grouping, and no later one does.
    #[inline(always)]
    pub fn seek_one(
        &mut self,
        past: bool,
        mode: Mode,
        classes: &[CharacterClass],
        number: usize,
        wanted: bool,
    ) -> Result<bool, Halt>
        ensures follows { Follows result self.new (seeks (suc self.old.steps) past (pay_first (test_grouping wanted (class_at (map members classes.now) number) number)) mode self.old) }
        ensures no_more { IfOk result (λ _. self.new.steps ≤ self.old.steps) }
    {
        if self.steps() == 0 {
            return Err(Halt::Steps);
        }
        self.touch_grouping(number)?;
        match mode {
            Mode::Forward => self.seek_touched::<true>(past, classes, number, wanted),
            Mode::Backward => self.seek_touched::<false>(past, classes, number, wanted),
        }
    }
}

// Returns Forward if true, else Backward.
#[inline(always)]
fn mode_if(forward: bool) -> Mode
    ensures { result ≡ mode_if forward }
{
    if forward {
        Mode::Forward
    } else {
        Mode::Backward
    }
}

// Returns how many characters are read before the first one that is in the class with this number, or that is not, as
// `wanted` says; if there is none, all of them.
#[inline(always)]
fn count_before(
    mode: Mode,
    part: &[char],
    classes: &[CharacterClass],
    number: usize,
    wanted: bool,
) -> usize
    ensures { result ≡ count_before wanted (class_at (map members classes.now) number) (read_as mode part.now) }
{
    match classes.get(number) {
        Some(class) => first_met(mode, part, class, wanted).unwrap_or(part.len()),
        None => { if wanted { part.len() } else { 0 } }
    }
}

// Returns the place of the first character read that is in the class, or that is not, as `wanted` says.
#[inline(always)]
fn first_met(mode: Mode, part: &[char], class: &CharacterClass, wanted: bool) -> Option<usize>
    ensures { result ≡ position (λ c. next_is wanted (members class.now) (Some c)) (read_as mode part.now) }
{
    match mode {
        Mode::Forward => part.iter().position(|c| is_met(class, *c, wanted)),
        Mode::Backward => part.iter().rev().position(|c| is_met(class, *c, wanted)),
    }
}

// Returns whether a character is in the class, or is not, as `wanted` says.
#[inline(always)]
fn is_met(class: &CharacterClass, c: char, wanted: bool) -> bool
    ensures { result ≡ next_is wanted (members class.now) (Some c) }
{
    if wanted {
        class.contains(c)
    } else {
        !class.contains(c)
    }
}
