//! Laws of the definitions, which hold of all texts.

ghost use Rattle.wp_lift.specs.Laws.{LiftingsAreFormed, LiftingsAreNamed, ObjectsFitBySubtypes, RowsAreSubtypes};

/// The computed rows of types are the reflexive and transitive closure of the declared pairs, with `object` above every type.
pub fn rows_are_subtypes()
    ensures { RowsAreSubtypes }
{}

/// The names of a lifted problem are words where those of its records are, and they tell its objects and its schemas apart.
pub fn liftings_are_named()
    ensures { LiftingsAreNamed }
{}

/// Each lifted problem is well formed: what it names by number is there.
pub fn liftings_are_formed()
    ensures { LiftingsAreFormed }
{}

/// An object fits a parameter exactly where one of its types is a subtype of one of the parameter's types, by the declared pairs.
pub fn objects_fit_by_subtypes()
    ensures { ObjectsFitBySubtypes }
{}
