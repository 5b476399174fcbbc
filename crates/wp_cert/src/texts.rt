//! The texts of certificates and of audits. Each piece is put behind what was written so far.
ghost use Rattle.std.specs.Prelude.{◌≡◌, ◌≢◌, ◌<◌, ◌++◌, decimal, length, IfOk, OnOk};
ghost use Rattle.wp_cert.specs.Audits.{NamesAct};
ghost use Rattle.wp_cert.specs.Format.{line, spaced, header_line, state_line, states_text, text_of};
ghost use Rattle.wp_cert.specs.Texts.{audit_text, audit_line, name_at, open_text, cert_error_text};

use crate::answer::Audit;
use crate::errors::CertError;
use crate::states::Cert;
use itoa::Buffer;
use std::alloc::{AllocError, Global};
use wp_edge::{Text, Texts};
use wp_task::Atoms;

/// The text of a certificate, without comments.
pub fn cert_text(alloc: Global, cert: &Cert) -> Result<Text, AllocError>
    ensures { IfOk result (λ text. text ≡ text_of cert.now) }
{
    let states = cert.as_slice();
    let mut out = Vec::new(alloc);
    put_header(&mut out, states.len() as u64)?;
    put_states(&mut out, states)?;
    Ok(Text::of_vec(out))
}

#[tactic(auto, unfolding(crate::specs::Format::header_line))]
fn put_header(out: &mut Vec<u8>, count: u64) -> Result<(), AllocError>
    ensures { OnOk result (out.new.items ≡ out.old.items ++ line (header_line count)) }
{
    put_counted(out, b"states ", count)?;
    out.push(b'\n')?;
    Ok(())
}

fn put_states(out: &mut Vec<u8>, states: &[Atoms]) -> Result<(), AllocError>
    ensures { OnOk result (out.new.items ≡ out.old.items ++ states_text states.now) }
{
    for atoms in states {
        put_state(out, atoms)?;
    }
    Ok(())
}

#[tactic(auto, unfolding(crate::specs::Format::state_line))]
fn put_state(out: &mut Vec<u8>, atoms: &Atoms) -> Result<(), AllocError>
    ensures { OnOk result (out.new.items ≡ out.old.items ++ line (state_line atoms.now)) }
{
    out.extend_from_slice(b"state")?;
    put_spaced(out, atoms.as_slice())?;
    out.push(b'\n')?;
    Ok(())
}

fn put_spaced(out: &mut Vec<u8>, numbers: &[u32]) -> Result<(), AllocError>
    ensures { OnOk result (out.new.items ≡ out.old.items ++ spaced numbers.now) }
{
    for number in numbers {
        put_counted(out, b" ", u64::from(*number))?;
    }
    Ok(())
}

/// The line of an audit: that the states are closed, or what fails first. `names` are those of the task's actions.
pub fn audit_text(
    alloc: Global,
    names: &Texts,
    cert: &Cert,
    audit: &Audit,
) -> Result<Text, AllocError>
    requires { NamesAct (length names.now) audit.now }
    ensures { IfOk result (λ text. text ≡ audit_text names.now cert.now audit.now) }
{
    let mut out = Vec::new(alloc);
    put_audit(&mut out, names, cert.as_slice().len() as u64, audit)?;
    Ok(Text::of_vec(out))
}

#[tactic(auto, unfolding(crate::specs::Texts::audit_line))]
fn put_audit(out: &mut Vec<u8>, names: &Texts, count: u64, audit: &Audit) -> Result<(), AllocError>
    requires { NamesAct (length names.now) audit.now }
    ensures { OnOk result (out.new.items ≡ out.old.items ++ audit_line names.now count audit.now) }
{
    match audit {
        Audit::Yes => put_counted_line(out, b"; closed states ", count),
        Audit::Foreign { state } => put_counted_line(out, b"; foreign atom in state ", *state),
        Audit::NoStart => out.extend_from_slice(b"; no start\n"),
        Audit::Goal { state } => put_counted_line(out, b"; goal in state ", *state),
        Audit::Open { state, act } => put_open(out, names, *state, *act),
    }
}

fn put_open(out: &mut Vec<u8>, names: &Texts, state: u64, act: u32) -> Result<(), AllocError>
    requires { act < length names.now }
    ensures { OnOk result (out.new.items ≡ out.old.items ++ line (open_text names.now state act)) }
{
    put_counted(out, b"; not closed: state ", state)?;
    out.extend_from_slice(b" act ")?;
    put_name(out, names, act)?;
    out.push(b'\n')?;
    Ok(())
}

fn put_name(out: &mut Vec<u8>, names: &Texts, act: u32) -> Result<(), AllocError>
    requires { act < length names.now }
    ensures { OnOk result (out.new.items ≡ out.old.items ++ name_at names.now act) }
{
    out.extend_from_slice(names.as_slice()[act as usize].as_slice())
}

/// The line of a text that is refused as a certificate.
pub fn cert_error_text(alloc: Global, error: &CertError) -> Result<Text, AllocError>
    requires { error.now ≢ CertError.Memory }
    ensures { IfOk result (λ text. text ≡ cert_error_text error.now) }
{
    let mut out = Vec::new(alloc);
    put_cert_error(&mut out, error)?;
    Ok(Text::of_vec(out))
}

#[tactic(auto, unfolding(crate::specs::Texts::cert_error_text))]
fn put_cert_error(out: &mut Vec<u8>, error: &CertError) -> Result<(), AllocError>
    requires { error.now ≢ CertError.Memory }
    ensures { OnOk result (out.new.items ≡ out.old.items ++ cert_error_text error.now) }
{
    match error {
        CertError::Line { line } => put_counted_line(out, b"; refused: certificate: line ", *line),
        CertError::Memory => unreachable!(),
    }
}

fn put_counted_line(out: &mut Vec<u8>, words: &[u8], number: u64) -> Result<(), AllocError>
    ensures { OnOk result (out.new.items ≡ out.old.items ++ line (words.now ++ decimal number)) }
{
    put_counted(out, words, number)?;
    out.push(b'\n')?;
    Ok(())
}

/// Some words, and a number behind them.
fn put_counted(out: &mut Vec<u8>, words: &[u8], number: u64) -> Result<(), AllocError>
    ensures { OnOk result (out.new.items ≡ out.old.items ++ (words.now ++ decimal number)) }
{
    let mut digits = Buffer::new();
    out.extend_from_slice(words)?;
    out.extend_from_slice(digits.format(number).as_bytes())
}
