//! Pieces of lines, each behind what was written so far.

ghost use Rattle.std.specs.Prelude.{◌≡◌, ◌++◌, decimal, OnOk};
ghost use Rattle.wp_report.specs.Inputs.{part_text};

use itoa::Buffer;
use std::alloc::AllocError;
use wp_syntax::Part;

pub fn put_number(out: &mut Vec<u8>, number: u64) -> Result<(), AllocError>
    ensures { OnOk result (out.new.items ≡ out.old.items ++ decimal number) }
{
    let mut digits = Buffer::new();
    // Numbers are short: pushes cost less than a copy.
    for digit in digits.format(number).as_bytes() {
        out.push(*digit)?;
    }
    Ok(())
}

pub fn put_two(out: &mut Vec<u8>, first: &[u8], second: &[u8]) -> Result<(), AllocError>
    ensures { OnOk result (out.new.items ≡ out.old.items ++ (first.now ++ second.now)) }
{
    out.extend_from_slice(first)?;
    out.extend_from_slice(second)
}

pub fn put_counted(out: &mut Vec<u8>, words: &[u8], number: u64) -> Result<(), AllocError>
    ensures { OnOk result (out.new.items ≡ out.old.items ++ (words.now ++ decimal number)) }
{
    out.extend_from_slice(words)?;
    put_number(out, number)
}

pub fn part_word(part: Part) -> &'static str
    ensures { result.now ≡ part_text part }
{
    match part {
        Part::Domain => "domain",
        Part::Problem => "problem",
        Part::Plan => "plan",
        Part::Certificate => "certificate",
    }
}
