//! Declared objects.

ghost use Rattle.std.specs.Prelude.{◌≡◌, ◌++◌, [], slice_set, slice_index_or, IfOk, OnOk};
ghost use Rattle.wp_lift.specs.Walk.{Gives, each_after};
ghost use Rattle.wp_lift.specs.Lifting.{with_object, object_of, objects_of};

use crate::fault::bad;
use crate::names::NameTable;
use crate::types::{TypeLists, TypeNumbers};
use crate::typing::{is_one_too_many, kinds_of};
use std::alloc::{AllocError, Global};
use wp_edge::Text;
use wp_syntax::{Part, PddlError, PddlKind, Typed};

/// So many objects may be declared, constants among them.
const MOST_OBJECTS: u32 = 65536;

/// The objects so far, with the types that each was declared with.
#[derive(Drop)]
pub struct Known {
    pub names: NameTable,
    pub kinds: TypeLists,
}

fn with_object(
    alloc: Global,
    known: Known,
    name: &Text,
    kinds: TypeNumbers,
) -> Result<Known, AllocError>
    ensures { IfOk result (λ more. more ≡ with_object known name.now kinds) }
{
    let Known { names, kinds: all } = known;
    match names.number_of(name) {
        None => {
            let names = names.with_name(alloc, name.copy(alloc)?)?;
            let kinds = all.with_list(kinds)?;
            Ok(Known { names, kinds })
        }
        Some(number) => {
            let kinds = all.with_more(number, kinds.as_slice())?;
            Ok(Known { names, kinds })
        }
    }
}

#[tactic(auto, unfolding(crate::specs::Lifting::object_of))]
fn object_of(
    alloc: Global,
    part: Part,
    types: &NameTable,
    known: Known,
    typed: &Typed,
) -> Result<Known, PddlError>
    ensures { Gives result (object_of part types.now known typed.now) }
{
    if is_one_too_many(MOST_OBJECTS as usize, &known.names, &typed.name.text) {
        let kind = PddlKind::TooMany {
            limit: MOST_OBJECTS,
        };
        return Err(bad(part, kind, typed.name.at));
    }
    let kinds = kinds_of(alloc, part, types, typed.kinds.as_slice())?;
    let known = with_object(alloc, known, &typed.name.text, kinds)?;
    Ok(known)
}

fn objects_from(
    alloc: Global,
    part: Part,
    types: &NameTable,
    known: Known,
    declared: &[Typed],
) -> Result<Known, PddlError>
    ensures { Gives result (each_after (object_of part types.now) known declared.now) }
{
    let mut known = known;
    for typed in declared {
        known = object_of(alloc, part, types, known, typed)?;
    }
    Ok(known)
}

/// The constants of a domain, then the objects of a problem. One that is declared again keeps its number and has all its types.
#[tactic(auto, unfolding(crate::specs::Lifting::objects_of))]
pub fn objects_of(
    alloc: Global,
    types: &NameTable,
    constants: &[Typed],
    objects: &[Typed],
) -> Result<Known, PddlError>
    ensures { Gives result (objects_of types.now constants.now objects.now) }
{
    let none = Known {
        names: NameTable::new(alloc),
        kinds: TypeLists::of_vec(Vec::new(alloc)),
    };
    let known = objects_from(alloc, Part::Domain, types, none, constants)?;
    objects_from(alloc, Part::Problem, types, known, objects)
}
