//! The depot: a truck on a road, and parcels that are to be carried along it.
ghost use Rattle.std.specs.Prelude.{◌≡◌, ◌≤◌, ◌<◌, ◌-◌, ◌++◌, ℕ, IfOk, OnOk};
ghost use Rattle.wp_gen.specs.Depot.{at_text, domain_text, each_below, goal_line, goal_of, init_line, objects_line, parcel_text, place_text, problem_text, roads_text, start_of};
ghost use Rattle.wp_gen.specs.Numbers.{drawn_below, next_of};

use crate::numbers::{drawn_below, next_of};
use crate::pieces::{put_at, put_parcel, put_place, put_roads};
use std::alloc::{AllocError, Global};
use wp_edge::Text;

/// The domain and the problem of a number and a size: as many places and as many parcels as the size says.
pub fn depot_task(alloc: Global, number: u64, size: u32) -> Result<(Text, Text), AllocError>
    requires { 1 ≤ size }
    ensures { IfOk result (λ texts. texts ≡ (domain_text, problem_text number size)) }
{
    let domain = domain_text(alloc)?;
    let problem = problem_text(alloc, number, size)?;
    Ok((domain, problem))
}

#[tactic(auto, unfolding(crate::specs::Depot::domain_text))]
fn domain_text(alloc: Global) -> Result<Text, AllocError>
    ensures { IfOk result (λ text. text ≡ domain_text) }
{
    Ok(Text::of_vec(Vec::from_slice(alloc, DOMAIN.as_bytes())?))
}

const DOMAIN: &str = "(define (domain depot)
(:predicates (road ?a ?b) (truck ?p) (at ?b ?p) (held ?b))
(:action drive :parameters (?a ?b) :precondition (and (truck ?a) (road ?a ?b)) :effect (and (not (truck ?a)) (truck ?b)))
(:action load :parameters (?b ?p) :precondition (and (at ?b ?p) (truck ?p)) :effect (and (not (at ?b ?p)) (held ?b)))
(:action unload :parameters (?b ?p) :precondition (and (held ?b) (truck ?p)) :effect (and (not (held ?b)) (at ?b ?p))))
";

#[tactic(auto, unfolding(crate::specs::Depot::problem_text))]
fn problem_text(alloc: Global, number: u64, size: u32) -> Result<Text, AllocError>
    requires { 1 ≤ size }
    ensures { IfOk result (λ text. text ≡ problem_text number size) }
{
    let mut out = Vec::from_slice(alloc, b"(define (problem depot) (:domain depot)\n")?;
    put_objects(&mut out, size)?;
    put_parcels(alloc, &mut out, number, size)?;
    Ok(Text::of_vec(out))
}

#[tactic(auto, unfolding(crate::specs::Depot::objects_line))]
fn put_objects(out: &mut Vec<u8>, size: u32) -> Result<(), AllocError>
    ensures { OnOk result (out.new.items ≡ out.old.items ++ objects_line size) }
{
    out.extend_from_slice(b"(:objects")?;
    put_places(out, size)?;
    put_parcel_names(out, size)?;
    out.extend_from_slice(b")\n")
}

fn put_places(out: &mut Vec<u8>, size: u32) -> Result<(), AllocError>
    ensures { OnOk result (out.new.items ≡ out.old.items ++ each_below place_text size) }
{
    for place in 0..size {
        put_place(out, place)?;
    }
    Ok(())
}

fn put_parcel_names(out: &mut Vec<u8>, size: u32) -> Result<(), AllocError>
    ensures { OnOk result (out.new.items ≡ out.old.items ++ each_below parcel_text size) }
{
    for parcel in 0..size {
        put_parcel(out, parcel)?;
    }
    Ok(())
}

// The opening state and the goals. The goals are drawn with the starts, so they wait in a text of their own.
fn put_parcels(alloc: Global, out: &mut Vec<u8>, number: u64, size: u32) -> Result<(), AllocError>
    requires { 1 ≤ size }
    ensures { OnOk result (out.new.items ≡ out.old.items ++ (init_line number size ++ goal_line number size)) }
{
    let mut goals = Vec::new(alloc);
    put_lines(out, &mut goals, number, size)?;
    out.extend_from_slice(goals.as_slice())
}

#[tactic(auto, unfolding(crate::specs::Depot::init_line, crate::specs::Depot::goal_line))]
fn put_lines(
    init: &mut Vec<u8>,
    goals: &mut Vec<u8>,
    number: u64,
    size: u32,
) -> Result<(), AllocError>
    requires { 1 ≤ size }
    ensures init { OnOk result (init.new.items ≡ init.old.items ++ init_line number size) }
    ensures goals { OnOk result (goals.new.items ≡ goals.old.items ++ goal_line number size) }
{
    init.extend_from_slice(b"(:init (truck p0)")?;
    put_all_roads(init, size - 1)?;
    goals.extend_from_slice(b"(:goal (and")?;
    put_drawn(init, goals, number, size)?;
    init.extend_from_slice(b")\n")?;
    goals.extend_from_slice(b")))\n")?;
    Ok(())
}

fn put_all_roads(out: &mut Vec<u8>, count: u32) -> Result<(), AllocError>
    ensures { OnOk result (out.new.items ≡ out.old.items ++ each_below roads_text count) }
{
    for place in 0..count {
        put_roads(out, place)?;
    }
    Ok(())
}

// For each parcel its start and then its goal.
fn put_drawn(
    starts: &mut Vec<u8>,
    goals: &mut Vec<u8>,
    number: u64,
    size: u32,
) -> Result<(), AllocError>
    requires { 1 ≤ size }
    ensures starts { OnOk result (starts.new.items ≡ starts.old.items ++ each_below (λ (parcel : ℕ). at_text parcel (start_of number size parcel)) size) }
    ensures goals { OnOk result (goals.new.items ≡ goals.old.items ++ each_below (λ (parcel : ℕ). at_text parcel (goal_of number size parcel)) size) }
{
    let mut term = number;
    for parcel in 0..size {
        put_next(starts, &mut term, size, parcel)?;
        put_next(goals, &mut term, size, parcel)?;
    }
    Ok(())
}

// A parcel at the place that is drawn next.
fn put_next(out: &mut Vec<u8>, term: &mut u64, size: u32, parcel: u32) -> Result<(), AllocError>
    requires { 1 ≤ size }
    ensures text { OnOk result (out.new.items ≡ out.old.items ++ at_text parcel (drawn_below size (next_of term.old))) }
    ensures term { OnOk result (term.new ≡ next_of term.old) }
{
    *term = next_of(*term);
    put_at(out, parcel, drawn_below(size, *term))
}
