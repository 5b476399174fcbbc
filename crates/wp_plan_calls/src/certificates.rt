//! Certificates of no plan on a task without a way out: each call that takes memory answers.

use std::alloc::Global;
use std::process::Abort;
use std::test::Fail;
use wp_cert::{
    Cert, CertError, CloseError, audit, audit_text, cert_error_text, cert_text, close, read_cert,
};
use wp_edge::{Text, Texts};
use wp_fixtures::dead_end;

const CLOSED: &str = "states 2\nstate 0\nstate 1\n";

fn read(alloc: Global, text: &str) -> Result<Cert, Fail> {
    match read_cert(alloc, text.as_bytes()) {
        Ok(cert) => Ok(cert),
        Err(_) => Err(Fail::new("a certificate is refused")),
    }
}

fn names(alloc: Global) -> Result<Texts, Fail> {
    let mut names = Vec::new(alloc);
    for name in [b"(bad)".as_slice(), b"(cut)".as_slice()] {
        names.push(Text::of_vec(Vec::from_slice(alloc, name)?))?;
    }
    Ok(Texts::of_vec(names))
}

/// The line of the audit of a text in the task without a way out.
fn said(alloc: Global, text: &str) -> Result<Text, Fail> {
    let task = dead_end(alloc)?;
    let cert = read(alloc, text)?;
    let found = audit(alloc, &task, &cert)?;
    let names = names(alloc)?;
    if names.as_slice().len() != task.act_count() as usize {
        return Err(Fail::new("not a name for each action"));
    }
    let line = audit_text(alloc, &names, &cert, &found)?;
    Ok(line)
}

fn says<R: Abort>(rt: &R, alloc: Global, text: &str, line: &str) -> Result<(), Fail> {
    assert_eq!(rt; said(alloc, text)?.as_slice(), line.as_bytes());
    Ok(())
}

#[test]
fn audits_name_what_fails_first(rt: HostRuntime) -> Result<(), Fail> {
    let alloc = rt.alloc();
    says(&rt, alloc, CLOSED, "; closed states 2\n")?;
    says(
        &rt,
        alloc,
        "; by hand\nstates 1\nstate 0\n",
        "; not closed: state 0 act (bad)\n",
    )?;
    says(&rt, alloc, "states 1\nstate 1\n", "; no start\n")?;
    says(
        &rt,
        alloc,
        "states 3\nstate 0\nstate 1\nstate 2\n",
        "; goal in state 2\n",
    )?;
    says(
        &rt,
        alloc,
        "states 1\nstate 9\n",
        "; foreign atom in state 0\n",
    )?;
    Ok(())
}

#[test]
fn reachable_states_are_listed_up_to_the_limit(rt: HostRuntime) -> Result<(), Fail> {
    let alloc = rt.alloc();
    let task = dead_end(alloc)?;
    match close(alloc, &task, 2) {
        Ok(cert) => assert_eq!(rt; cert_text(alloc, &cert)?.as_slice(), CLOSED.as_bytes()),
        Err(_) => return Err(Fail::new("two states are above a limit of two")),
    }
    match close(alloc, &task, 1) {
        Err(CloseError::Limit) => Ok(()),
        _ => Err(Fail::new("two states are within a limit of one")),
    }
}

#[test]
fn a_line_that_is_missing_is_named(rt: HostRuntime) -> Result<(), Fail> {
    let alloc = rt.alloc();
    match read_cert(alloc, b"states 2\nstate 0\n") {
        Err(CertError::Line { line }) => {
            let text = cert_error_text(alloc, &CertError::Line { line })?;
            assert_eq!(rt;
                text.as_slice(),
                b"; refused: certificate: line 3\n".as_slice()
            );
            Ok(())
        }
        _ => Err(Fail::new("a state is missing")),
    }
}
