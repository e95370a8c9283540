//! Laws of rows: of their classes, of the changes between two lists, of the largest classes and of families.

ghost use Rattle.sbl_rows.specs.ClassesAreSound.{ClassesAreOfPairs, ClassesAreOfRows, ClassesOfPairsRise, ClassesRise};
ghost use Rattle.sbl_rows.specs.LargestAreSound.{LargestAreFirst};
ghost use Rattle.sbl_rows.specs.FamiliesAreSound.{NoneApartIfNoUnder, NoneJoinedIfNoOver, PairsAddUp, UnknownHaveNoRow, UnknownRise, WordsHaveTheirStems};
ghost use Rattle.sbl_rows.specs.ChangesAreSound.{EqualListsHaveNoChanges, ExchangedListsTurnChanges, NoClassIsSplitAndRenamed};

/// The stems of the classes are in strictly ascending code point order, a prefix first, and so are the words of each class.
/// Each class has at least one word. There is a class of a stem with a word in it exactly if there is a row of that word with
/// that stem.
pub fn classes_are_sound()
    ensures rise { ClassesRise }
    ensures of_rows { ClassesAreOfRows }
{}

/// Two equal lists have no changes, if each word has one row. No class is both split and renamed. If the lists are exchanged, added and
/// removed words change places, so do split and merged classes; each changed word has its two outcomes exchanged, and each renamed
/// class its two stems.
pub fn changes_are_sound()
    ensures none { EqualListsHaveNoChanges }
    ensures either { NoClassIsSplitAndRenamed }
    ensures exchange { ExchangedListsTurnChanges }
{}

/// The stems of the classes of pairs are in strictly ascending code point order, a prefix first, and so are the members of each class. Each
/// class has at least one member. There is a class of a stem with a member exactly if a word has both.
pub fn classes_of_pairs_are_sound()
    ensures rise { ClassesOfPairsRise }
    ensures of_pairs { ClassesAreOfPairs }
{}

/// No two words of one family have different stems exactly if there is no row of a family with several stems. No two words of two families
/// share a stem exactly if there is no row of a stem of several families. The pairs within families and across them are all pairs of the words
/// that count; the pairs within share a stem or are apart. Each word that counts has the stem of its row. The unknown words are those of the
/// lists that have no row, each once.
pub fn families_are_sound()
    ensures apart { NoneApartIfNoUnder }
    ensures joined { NoneJoinedIfNoOver }
    ensures sum { PairsAddUp }
    ensures stems { WordsHaveTheirStems }
    ensures rise { UnknownRise }
    ensures unknown { UnknownHaveNoRow }
{}

/// The largest classes and some others are all classes of the rows, each once, and each class is before all that come after it: it has
/// more words, or as many and an earlier stem. There are `n` largest classes, or all classes if these are fewer.
pub fn largest_are_sound()
    ensures { LargestAreFirst }
{}
