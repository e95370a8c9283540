//! Laws of what the program reads.
ghost use Rattle.snowbench.specs.WholeCheck.{ListsAreRead};

/// The text of a list has the lines of the list, if they are lines of an input. So what `check` compares are the lines of the
/// words and of the expected stems, as they are in the input.
pub fn lists_are_read()
    ensures { ListsAreRead }
{}
