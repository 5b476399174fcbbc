//! The laws of the tables, each on a function of its own.
ghost use Rattle.std.specs.Prelude.{ℕ, List};
ghost use Rattle.wp_task.specs.Novelty.{Generated};
ghost use Rattle.wp_novel.specs.MarkedTuples.{MarkedTuplesAreNew};
ghost use Rattle.wp_novel.specs.StandsFor.{first_number, IsFirstNumber, SharedTuplesAreMarked, NoTupleIsOld};
ghost use Rattle.wp_novel.specs.Jobs.{WorkIsOut};

/// The number that the definition computes for a tuple is that of the first birth which has it.
pub fn first_numbers_are_first()
    ensures { (births : List Generated) (counters : ℕ × ℕ) (tuple : List ℕ) → IsFirstNumber births counters tuple (first_number births counters tuple) }
{}

/// The list of a birth's tuples that marks go through has exactly the tuples of its state that have a new atom.
pub fn marked_tuples_are_new()
    ensures { MarkedTuplesAreNew }
{}

/// A tuple that a birth shares with an earlier birth of its pair, for which the tables stand, was marked below its number: so what is
/// asked of a birth with new atoms holds where that birth has all its other atoms.
pub fn shared_tuples_are_marked()
    ensures { SharedTuplesAreMarked }
{}

/// Nothing is asked of a birth all whose atoms are new.
pub fn no_tuple_is_old()
    ensures { NoTupleIsOld }
{}

/// Where all jobs that are out are worked, they can be collected.
pub fn worked_jobs_are_out()
    ensures { WorkIsOut }
{}
