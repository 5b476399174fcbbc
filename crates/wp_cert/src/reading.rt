//! A certificate is read line by line.
ghost use Rattle.std.specs.Prelude.{◌≡◌, ◌<◌, ◌≤◌, ◌-◌, ◌++◌, ◌∷◌, [], true, false, length, option_copied, All, IfOk, IfSome, IfNone, MatchOption, ◌^◌, ◌+◌};
ghost use Rattle.wp_task.specs.Set.{AreAtoms};
ghost use Rattle.wp_cert.specs.Format.{cert_of, header_from, pieces, states_from, state_in, count_in, added_by, atoms_from, finished, is_done, is_comment, one_number, pieces_in, Gives};

use crate::errors::CertError;
use crate::states::{Cert, push_state};
use crate::words::{first_piece, read_number};
use std::alloc::{AllocError, Global};
use wp_task::Atoms;

const MOST_STATES: u32 = 100_000_000;

const GREATEST_ATOM: u32 = 65_535;

/// A line, and what stands behind its line feed.
#[derive(Clone, Copy, Drop)]
struct Split<'a> {
    line: &'a [u8],
    behind: &'a [u8],
}

/// The certificate that a text writes, or the first line that is not of its form.
#[tactic(auto, unfolding(crate::specs::Format::cert_of))]
pub fn read_cert(alloc: Global, bytes: &[u8]) -> Result<Cert, CertError>
    ensures { Gives result (cert_of bytes.now) }
{
    let mut rest = bytes;
    let mut number = 1;
    while let Some(split) = next_line(rest) {
        if !is_comment(split.line) {
            return read_from_header(alloc, split.line, split.behind, number);
        }
        rest = split.behind;
        number += 1;
    }
    Err(CertError::Line { line: number })
}

/// The first line of a text, where one ends.
fn next_line(bytes: &[u8]) -> Option<Split<'_>>
    ensures line { IfSome result (λ split. pieces 10 bytes.now ≡ split.line.now ∷ pieces 10 split.behind.now) }
    ensures shorter { IfSome result (λ split. length split.behind.now < length bytes.now) }
    ensures last { IfNone result (pieces 10 bytes.now ≡ bytes.now ∷ []) }
{
    match first_piece(bytes, b'\n') {
        (line, Some(behind)) => Some(Split { line, behind }),
        (_, None) => None,
    }
}

/// The certificate that a line with a number and what stands behind it write, where the line is no comment.
fn read_from_header(
    alloc: Global,
    line: &[u8],
    behind: &[u8],
    number: u64,
) -> Result<Cert, CertError>
    requires number { number + 1 + length behind.now < 2 ^ 64 }
    requires header { is_comment line.now ≡ false }
    ensures { Gives result (header_from number (line.now ∷ pieces 10 behind.now)) }
{
    match read_count(line) {
        None => Err(CertError::Line { line: number }),
        Some(count) => read_states(alloc, behind, number + 1, count),
    }
}

/// So many states, in lines of which the first has a number.
fn read_states(alloc: Global, bytes: &[u8], first: u64, count: u32) -> Result<Cert, CertError>
    requires number { first + length bytes.now < 2 ^ 64 }
    requires few { count ≤ 100000000 }
    ensures { Gives result (states_from first count (pieces 10 bytes.now)) }
{
    let mut states = Vec::new(alloc);
    let mut rest = bytes;
    let mut number = first;
    while let Some(split) = next_line(rest) {
        if !add_state(alloc, &mut states, count, split.line)? {
            return Err(CertError::Line { line: number });
        }
        rest = split.behind;
        number += 1;
    }
    finish(states, count, rest, number)
}

/// The certificate of the states, where they are all and nothing stands behind the last line feed.
fn finish(states: Vec<Atoms>, count: u32, rest: &[u8], number: u64) -> Result<Cert, CertError>
    requires few { length states.items ≤ count }
    requires most { count ≤ 100000000 }
    requires fits { All (AreAtoms 65536) states.items }
    ensures { Gives result (finished number (count - length states.items) states.items rest.now) }
{
    let left = count as usize - states.len();
    if !is_done(rest, left) {
        return Err(CertError::Line { line: number });
    }
    Ok(Cert::of_vec(states))
}

/// Whether nothing is left to come, and nothing is there.
fn is_done(last: &[u8], left: usize) -> bool
    ensures { result ≡ is_done last.now left }
{
    last.is_empty() && left == 0
}

/// Adds the state of a line to those so far, of so many; answers whether the line is of its form.
fn add_state(
    alloc: Global,
    states: &mut Vec<Atoms>,
    count: u32,
    line: &[u8],
) -> Result<bool, AllocError>
    requires few { length states.old.items ≤ count }
    requires fits { All (AreAtoms 65536) states.old.items }
    ensures form { IfOk result (λ ok.
        MatchOption (added_by (count - length states.old.items) line.now) (ok ≡ false)
        (λ added. (ok ≡ true) × (states.new.items ≡ states.old.items ++ added))) }
    ensures few { IfOk result (λ ok. length states.new.items ≤ count) }
    ensures fits { IfOk result (λ ok. All (AreAtoms 65536) states.new.items) }
{
    if is_comment(line) {
        return Ok(true);
    }
    if states.len() == count as usize {
        return Ok(false);
    }
    let Some(atoms) = read_state(alloc, line)? else {
        return Ok(false);
    };
    push_state(states, atoms)?;
    Ok(true)
}

/// Whether the line begins with a semicolon.
fn is_comment(line: &[u8]) -> bool
    ensures { result ≡ is_comment line.now }
{
    matches!(line, [b';', ..])
}

/// The number of states that a first line tells.
fn read_count(line: &[u8]) -> Option<u32>
    ensures value { result ≡ count_in line.now }
    ensures few { IfSome result (λ count. count ≤ 100000000) }
{
    let (word, behind) = first_piece(line, b' ');
    if word != b"states".as_slice() {
        return None;
    }
    read_last(behind?)
}

/// The number that the one word of a text writes.
#[tactic(auto, using(crate::proofs::LineLemmas::one_number_more))]
fn read_last(bytes: &[u8]) -> Option<u32>
    ensures value { result ≡ one_number (pieces 32 bytes.now) }
    ensures few { IfSome result (λ count. count ≤ 100000000) }
{
    match first_piece(bytes, b' ') {
        (number, None) => read_number(number, 0, MOST_STATES),
        (_, Some(_)) => None,
    }
}

/// The atoms of the line of a state.
fn read_state(alloc: Global, line: &[u8]) -> Result<Option<Atoms>, AllocError>
    ensures value { IfOk result (λ atoms. atoms ≡ state_in line.now) }
    ensures fits { IfOk result (λ atoms. IfSome atoms (AreAtoms 65536)) }
{
    let (word, behind) = first_piece(line, b' ');
    if word != b"state".as_slice() {
        return Ok(None);
    }
    read_atoms(alloc, behind)
}

/// The atoms that the words write, in increasing order.
fn read_atoms(alloc: Global, words: Option<&[u8]>) -> Result<Option<Atoms>, AllocError>
    ensures value { IfOk result (λ atoms. atoms ≡ atoms_from 0 (pieces_in 32 (option_copied words.entry))) }
    ensures fits { IfOk result (λ atoms. IfSome atoms (AreAtoms 65536)) }
{
    let mut atoms = Vec::new(alloc);
    let mut low = 0;
    let mut rest = words;
    while let Some(bytes) = rest {
        let (word, behind) = first_piece(bytes, b' ');
        let Some(atom) = read_number(word, low, GREATEST_ATOM) else {
            return Ok(None);
        };
        atoms.push(atom)?;
        low = atom + 1;
        rest = behind;
    }
    Ok(Some(Atoms::of_vec(atoms)))
}
