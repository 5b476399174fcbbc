//! What is said of a plan.

use std::alloc::{AllocError, AllocFailed};

/// Why a step is bad. Places count from 0.
#[derive(Drop)]
pub enum Why {
    /// No action schema has its name.
    UnknownAction,

    /// It has another number of arguments than the schema has parameters.
    Arguments { given: u32, wanted: u32 },

    /// The argument at this place names no object.
    UnknownObject { place: u32 },

    /// The object at this place has no type of the parameter.
    Misfit { place: u32 },

    /// The condition at this place, in text order, does not hold.
    Condition { place: u32 },
}

/// What a plan is. Steps count from 1, places from 0.
#[derive(Drop)]
pub enum Verdict {
    Valid,

    /// The first step that is bad, with its first cause.
    Bad { step: u32, why: Why },

    /// All steps apply, and the goal atom at this place does not hold after them.
    GoalUnmet { place: u32 },
}

/// What stops a step of a plan.
#[derive(Drop)]
pub enum Stop {
    Bad { why: Why },
    Memory,
}

impl From<Why> for Stop {
    ghost use Rattle.std.specs.Prelude.{◌≡◌};
    ghost use Rattle.wp_check.specs.declared.cause.Stop.TheVariants.{Bad};

    ghost from_gives = { λ why e. e ≡ Bad why };

    fn from(why: Why) -> Stop {
        Stop::Bad { why }
    }
}

impl From<AllocError> for Stop {
    ghost use Rattle.std.specs.Prelude.{◌≡◌};
    ghost use Rattle.wp_check.specs.declared.cause.Stop.TheVariants.{Memory};

    ghost from_gives = { λ _ e. e ≡ Memory };

    fn from(_error: AllocError) -> Stop {
        Stop::Memory
    }
}

impl<T: Drop> From<AllocFailed<T>> for Stop {
    ghost use Rattle.std.specs.Prelude.{◌≡◌};
    ghost use Rattle.wp_check.specs.declared.cause.Stop.TheVariants.{Memory};

    ghost from_gives = { λ _ e. e ≡ Memory };

    fn from(_error: AllocFailed<T>) -> Stop {
        Stop::Memory
    }
}
