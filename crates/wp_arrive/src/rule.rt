//! The rule that the words keep, and what each kind of step tells the pass that makes it.
ghost use Rattle.wp_arrive.specs.Rule.{Keeps, begun, Gains, Repeats, Reads, one_less, one_part, joined, spent};

use crate::arrivals::Pass;
use crate::view::View;
use atomic_table::{Join, Play, Split, TableRule};

/// What a table is told when it is made: how many words it has, and the pass whose marks it begins with, if any.
#[derive(Drop)]
pub(crate) struct Origin {
    pub words: u64,
    pub marked: Option<Pass>,
}

/// Each word is the first arrival of all marks.
pub(crate) struct FirstArrivals;

impl TableRule<u8, View, Origin> for FirstArrivals {
    ghost holds = { λ origin. Keeps origin.words };

    ghost first = { λ origin. begun origin.marked };
}

pub(crate) struct Marks;

impl Play<u8, View> for Marks {
    ghost then = { Gains };
}

/// A mark of the number that was marked last, where the word is low already.
pub(crate) struct MarksAgain;

impl Play<u8, View> for MarksAgain {
    ghost then = { Repeats };
}

pub(crate) struct Looks;

impl Play<u8, View> for Looks {
    ghost then = { Reads };
}

pub(crate) struct Gives;

impl Split<View> for Gives {
    ghost left = { one_less };

    ghost right = { λ _. one_part };
}

impl Join<View> for Gives {
    ghost both = { joined };

    ghost spent = { spent };
}
