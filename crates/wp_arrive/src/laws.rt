//! Laws of first arrival, on a function of their own.
ghost use Rattle.wp_arrive.specs.Laws.{FirstIsLeast, EndsAsFirst, AnyOrder, AllPartsHaveAllMarks};

/// The first arrival is the least number marked at a place, each word ends as it, and no order of the marks matters.
pub fn marks_in_any_order()
    ensures least { FirstIsLeast }
    ensures firsts { EndsAsFirst }
    ensures order { AnyOrder }
{}

/// Who holds all parts of a table has every mark that any pass made, each once.
pub fn all_parts_have_all_marks()
    ensures { AllPartsHaveAllMarks }
{}
