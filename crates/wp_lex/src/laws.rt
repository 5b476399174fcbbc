//! What holds of the definitions alone.

ghost use Rattle.wp_lex.specs.Words.{WordsAreRuns};
ghost use Rattle.wp_lex.specs.Faults.{FaultsAreFirst};
ghost use Rattle.wp_lex.specs.Lists.{TextsAreLists, PlansAreLists, ListsAreRead};
ghost use Rattle.wp_lex.specs.Leaves.{LeavesAreWords};
ghost use Rattle.wp_lex.specs.Rising.{TextsRise, PlansRise};
ghost use Rattle.wp_lex.specs.Written.{WrittenListsAreRead};

/// The word from a place where a letter follows none is a longest run of letters outside comments.
pub fn words_are_runs()
    ensures { WordsAreRuns }
{}

/// The fault of a text is the one of least place, where the end comes after all places.
pub fn faults_are_first()
    ensures { FaultsAreFirst }
{}

/// A PDDL text without a fault is one list.
pub fn texts_are_lists()
    ensures { TextsAreLists }
{}

/// A plan file without a fault is a row of lists.
pub fn plans_are_lists()
    ensures { PlansAreLists }
{}

/// Trees that are spelled out as brackets and words are read back.
pub fn lists_are_read()
    ensures { ListsAreRead }
{}

/// A list that is written out, a separator before each thing behind its first word, has no fault and is read as that list.
pub fn written_lists_are_read()
    ensures { WrittenListsAreRead }
{}

/// The places of the trees of a text rise from the left to the right.
pub fn texts_rise()
    ensures { TextsRise }
{}

/// The places of the trees of a plan file rise from the left to the right.
pub fn plans_rise()
    ensures { PlansRise }
{}

/// Each word of a text's trees is one or more letters, none of them in upper case.
pub fn leaves_are_words()
    ensures { LeavesAreWords }
{}
