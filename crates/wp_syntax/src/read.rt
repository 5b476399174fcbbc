//! The two readers.

ghost use Rattle.std.specs.Prelude.{◌≡◌, Some, Ok, Err, IfOk, IfErr};
ghost use Rattle.wp_lex.specs.Trees.{trees_of};
ghost use Rattle.wp_syntax.specs.declared.records.Domain.{Domain};
ghost use Rattle.wp_syntax.specs.declared.records.Problem.{Problem};
ghost use Rattle.wp_syntax.specs.Reading.{Wrong, fine, first, pddl_kind, error_of, refusal_at, IsRefusal, IsOfTrees, IsAnswer};
ghost use Rattle.wp_syntax.specs.Domains.{domain_of};
ghost use Rattle.wp_syntax.specs.Limits.{IsLimited};
ghost use Rattle.wp_syntax.specs.Problems.{problem_of};

use crate::domain::{domain_from, sectioned};
use crate::error::{Fault, Part, PddlError, PddlKind, ReadError, ReadKind};
use crate::problem::problem;
use crate::records::{Domain, Problem};
use std::alloc::Global;
use wp_lex::Tree;

fn pddl_kind(kind: ReadKind) -> PddlKind
    ensures { result ≡ pddl_kind kind }
{
    match kind {
        ReadKind::Shape => PddlKind::Shape,
        ReadKind::Unsupported { word } => PddlKind::Unsupported { word },
        ReadKind::Reserved => PddlKind::Reserved,
        ReadKind::Duplicate => PddlKind::Duplicate,
        ReadKind::TooMany { limit } => PddlKind::TooMany { limit },
    }
}

fn error_of(part: Part, error: ReadError) -> PddlError
    ensures { result ≡ error_of part error }
{
    match error {
        ReadError::Memory => PddlError::Memory,
        ReadError::Bad { fault } => {
            let Fault { kind, at } = fault;
            let kind = pddl_kind(kind);
            PddlError::Bad { part, kind, at }
        }
    }
}

/// The record of a domain, or the first fault of its tree. It looks up no name: `wp_lift` does.
pub fn read_domain(alloc: Global, tree: &Tree) -> Result<Domain, PddlError>
    ensures ok { IfOk result (λ domain. domain_of (trees_of tree.now) ≡ fine domain) }
    ensures limits { IfOk result IsLimited }
    ensures refusal { IfErr result (IsRefusal Part.Domain (domain_of (trees_of tree.now)).faults) }
    ensures kinds { IfErr result IsOfTrees }
    ensures accepts { (domain : Domain) → domain_of (trees_of tree.now) ≡ fine domain → IsAnswer result (Ok domain) }
    ensures refuses { (fault : Wrong) → first (domain_of (trees_of tree.now)).faults ≡ Some fault
        → IsAnswer result (Err (refusal_at Part.Domain fault)) }
{
    match sectioned(alloc, tree.items().as_slice()) {
        Err(error) => Err(error_of(Part::Domain, error)),
        Ok((name, sections)) => Ok(domain_from(alloc, name, sections)),
    }
}

/// The record of a problem, or the first fault of its tree. It looks up no name: `wp_lift` does.
pub fn read_problem(alloc: Global, tree: &Tree) -> Result<Problem, PddlError>
    ensures ok { IfOk result (λ problem. problem_of (trees_of tree.now) ≡ fine problem) }
    ensures refusal { IfErr result (IsRefusal Part.Problem (problem_of (trees_of tree.now)).faults) }
    ensures kinds { IfErr result IsOfTrees }
    ensures accepts { (problem : Problem) → problem_of (trees_of tree.now) ≡ fine problem → IsAnswer result (Ok problem) }
    ensures refuses { (fault : Wrong) → first (problem_of (trees_of tree.now)).faults ≡ Some fault
        → IsAnswer result (Err (refusal_at Part.Problem fault)) }
{
    match problem(alloc, tree.items().as_slice()) {
        Err(error) => Err(error_of(Part::Problem, error)),
        Ok(problem) => Ok(problem),
    }
}
