//! Conditions of instances as they are printed.

ghost use Rattle.std.specs.Prelude.{◌≡◌, ◌++◌, OnOk};
ghost use Rattle.wp_ground.specs.Texts.{atom_text};
ghost use Rattle.wp_report.specs.Verdicts.{equality_text, literal_text};

use std::alloc::{AllocError, Global};
use wp_ground::{atom_text, object_name};
use wp_lift::{GroundAtom, Lifted, SlotCond, grounded, object_in};

/// A ground atom.
pub fn put_atom(
    alloc: Global,
    out: &mut Vec<u8>,
    lifted: &Lifted,
    atom: &GroundAtom,
) -> Result<(), AllocError>
    ensures { OnOk result (out.new.items ≡ out.old.items ++ atom_text lifted.now atom.now) }
{
    let text = atom_text(alloc, lifted, atom)?;
    out.extend_from_slice(text.as_slice())
}

/// A condition with the objects of an instance.
pub fn put_literal(
    alloc: Global,
    out: &mut Vec<u8>,
    lifted: &Lifted,
    args: &[u32],
    cond: &SlotCond,
) -> Result<(), AllocError>
    ensures { OnOk result (out.new.items ≡ out.old.items ++ literal_text lifted.now args.now cond.now) }
{
    match cond {
        SlotCond::Atom { atom } => {
            let atom = grounded(alloc, args, atom)?;
            put_atom(alloc, out, lifted, &atom)
        }
        SlotCond::Same { a, b } => put_equality(
            out,
            lifted,
            object_in(args, a),
            object_in(args, b),
        ),
        SlotCond::Differ { a, b } => {
            out.extend_from_slice(b"(not ")?;
            put_equality(out, lifted, object_in(args, a), object_in(args, b))?;
            out.extend_from_slice(b")")
        }
    }
}

fn put_equality(out: &mut Vec<u8>, lifted: &Lifted, a: u32, b: u32) -> Result<(), AllocError>
    ensures { OnOk result (out.new.items ≡ out.old.items ++ equality_text lifted.now a b) }
{
    out.extend_from_slice(b"(= ")?;
    out.extend_from_slice(object_name(lifted, a))?;
    out.extend_from_slice(b" ")?;
    out.extend_from_slice(object_name(lifted, b))?;
    out.extend_from_slice(b")")
}
