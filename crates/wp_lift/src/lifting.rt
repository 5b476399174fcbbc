//! The lifted problem of a domain and a problem.

ghost use Rattle.std.specs.Prelude.{◌≡◌, ◌++◌, ◌∷◌, [], map, IfOk};
ghost use Rattle.wp_syntax.specs.declared.error.Part.TheVariants as parts;
ghost use Rattle.wp_syntax.specs.declared.records.Typed.{Typed};
ghost use Rattle.wp_lift.specs.declared.lifting.TypedSchema.{TypedSchema};
ghost use Rattle.wp_lift.specs.declared.schemas.Schema.{Schema};
ghost use Rattle.wp_lift.specs.Walk.{Gives, each, each_after};
ghost use Rattle.wp_lift.specs.Typing.{kinds_of};
ghost use Rattle.wp_lift.specs.Lifting.{naming_of, cond_of, effect_of, names_of, schema_of, ground_atom_of, stated_after, lifting_of};
ghost use Rattle.wp_lift.specs.Formed.{IsFormed};
ghost use Rattle.wp_lift.specs.Stages.{scene_of, facts_in, facts_of, assembled};

use crate::atoms::{GroundAtom, GroundAtoms};
use crate::closure::subtypes_of;
use crate::fault::{narrow, push};
use crate::lifted::Lifted;
use crate::meaning::grounded;
use crate::names::NameTable;
use crate::objects::{Known, objects_of};
use crate::preds::PredTable;
use crate::schemas::{Schema, Schemas, SlotCond, SlotConds, SlotEffect, SlotEffects};
use crate::scope::{Scope, atom_of, slot_of};
use crate::types::TypeLists;
use crate::typing::{kinds_of, types_of};
use std::alloc::{AllocError, Global};
use std::marker::Model;
use wp_syntax::{
    ActionText, AtomText, Cond, Domain, Effect, InitItem, Part, PddlError, Problem, Typed,
};

/// A schema with the types of each of its parameters.
#[derive(Drop)]
pub struct TypedSchema {
    pub schema: Schema,
    pub wanted: TypeLists,
}

/// A list of schemas with types.
#[derive(Drop)]
pub struct TypedSchemas {
    items: Vec<TypedSchema>,
}

impl Model for TypedSchemas {
    ghost use Rattle.std.specs.Prelude.{List};
    ghost use Rattle.wp_lift.specs.declared.lifting.TypedSchema.{TypedSchema};

    ghost Value = { List TypedSchema };

    ghost view = { λ a. a.items.items };
}

/// The names of a domain and a problem.
#[derive(Drop)]
pub struct Scene {
    pub types: NameTable,
    pub known: Known,
    pub preds: PredTable,
}

/// What a problem states and what it wants.
#[derive(Drop)]
pub struct Facts {
    pub opening: GroundAtoms,
    pub goals: GroundAtoms,
}

#[tactic(auto, unfolding(crate::specs::Lifting::cond_of))]
fn cond_of(alloc: Global, scope: Scope<'_>, cond: &Cond) -> Result<SlotCond, PddlError>
    ensures { Gives result (cond_of (naming_of scope.entry) cond.now) }
{
    match cond {
        Cond::Atom { atom } => {
            let atom = atom_of(alloc, scope, atom)?;
            Ok(SlotCond::Atom { atom })
        }
        Cond::Same { a, b, at: _ } => {
            let a = slot_of(scope, a)?;
            let b = slot_of(scope, b)?;
            Ok(SlotCond::Same { a, b })
        }
        Cond::Differ { a, b, at: _ } => {
            let a = slot_of(scope, a)?;
            let b = slot_of(scope, b)?;
            Ok(SlotCond::Differ { a, b })
        }
    }
}

fn conds_of(alloc: Global, scope: Scope<'_>, texts: &[Cond]) -> Result<SlotConds, PddlError>
    ensures { Gives result (each (cond_of (naming_of scope.entry)) texts.now) }
{
    let mut conds = Vec::new(alloc);
    for text in texts {
        let cond = cond_of(alloc, scope, text)?;
        push(&mut conds, cond)?;
    }
    Ok(SlotConds::of_vec(conds))
}

#[tactic(auto, unfolding(crate::specs::Lifting::effect_of))]
fn effect_of(alloc: Global, scope: Scope<'_>, text: &Effect) -> Result<SlotEffect, PddlError>
    ensures { Gives result (effect_of (naming_of scope.entry) text.now) }
{
    let atom = atom_of(alloc, scope, &text.atom)?;
    Ok(SlotEffect {
        add: text.add,
        atom,
    })
}

fn effects_of(alloc: Global, scope: Scope<'_>, texts: &[Effect]) -> Result<SlotEffects, PddlError>
    ensures { Gives result (each (effect_of (naming_of scope.entry)) texts.now) }
{
    let mut effects = Vec::new(alloc);
    for text in texts {
        let effect = effect_of(alloc, scope, text)?;
        push(&mut effects, effect)?;
    }
    Ok(SlotEffects::of_vec(effects))
}

fn params_of(alloc: Global, params: &[Typed]) -> Result<NameTable, AllocError>
    ensures { IfOk result (λ names. names ≡ names_of params.now) }
{
    let mut names = NameTable::new(alloc);
    for param in params {
        names = names.with_name(alloc, param.name.text.copy(alloc)?)?;
    }
    Ok(names)
}

// The types of each parameter of an action.
fn wanted_of(alloc: Global, types: &NameTable, params: &[Typed]) -> Result<TypeLists, PddlError>
    ensures { Gives result (each (λ (param : Typed). kinds_of parts.Domain types.now param.kinds) params.now) }
{
    let mut wanted = Vec::new(alloc);
    for param in params {
        let kinds = kinds_of(alloc, Part::Domain, types, param.kinds.as_slice())?;
        push(&mut wanted, kinds)?;
    }
    Ok(TypeLists::of_vec(wanted))
}

#[tactic(auto, unfolding(crate::specs::Lifting::schema_of))]
fn schema_of(
    alloc: Global,
    types: &NameTable,
    preds: &PredTable,
    objects: &NameTable,
    action: &ActionText,
) -> Result<TypedSchema, PddlError>
    ensures { Gives result (schema_of types.now preds.now objects.now action.now) }
{
    let params = params_of(alloc, action.params.as_slice())?;
    let scope = Scope {
        part: Part::Domain,
        preds,
        objects,
        params: &params,
    };
    let arity = narrow(action.params.as_slice().len())?;
    let name = action.name.text.copy(alloc)?;
    let wanted = wanted_of(alloc, types, action.params.as_slice())?;
    let conds = conds_of(alloc, scope, action.pre.as_slice())?;
    let effects = effects_of(alloc, scope, action.effects.as_slice())?;
    let schema = Schema {
        name,
        arity,
        conds,
        effects,
    };
    Ok(TypedSchema { schema, wanted })
}

fn schemas_of(
    alloc: Global,
    types: &NameTable,
    preds: &PredTable,
    objects: &NameTable,
    actions: &[ActionText],
) -> Result<TypedSchemas, PddlError>
    ensures { Gives result (each (schema_of types.now preds.now objects.now) actions.now) }
{
    let mut items = Vec::new(alloc);
    for action in actions {
        let schema = schema_of(alloc, types, preds, objects, action)?;
        push(&mut items, schema)?;
    }
    Ok(TypedSchemas { items })
}

#[tactic(auto, unfolding(crate::specs::Lifting::ground_atom_of))]
fn ground_atom_of(alloc: Global, scope: Scope<'_>, text: &AtomText) -> Result<GroundAtom, PddlError>
    ensures { Gives result (ground_atom_of (naming_of scope.entry) text.now) }
{
    let atom = atom_of(alloc, scope, text)?;
    let atom = grounded(alloc, &[], &atom)?;
    Ok(atom)
}

#[tactic(auto, unfolding(crate::specs::Lifting::stated_after))]
fn stated_after(
    alloc: Global,
    scope: Scope<'_>,
    atoms: GroundAtoms,
    item: &InitItem,
) -> Result<GroundAtoms, PddlError>
    ensures { Gives result (stated_after (naming_of scope.entry) atoms item.now) }
{
    let atom = ground_atom_of(alloc, scope, &item.atom)?;
    if item.stated {
        let atoms = atoms.with_atom(atom)?;
        return Ok(atoms);
    }
    Ok(atoms)
}

fn opening_of(alloc: Global, scope: Scope<'_>, items: &[InitItem]) -> Result<GroundAtoms, PddlError>
    ensures { Gives result (each_after (stated_after (naming_of scope.entry)) [] items.now) }
{
    let mut atoms = GroundAtoms::of_vec(Vec::new(alloc));
    for item in items {
        atoms = stated_after(alloc, scope, atoms, item)?;
    }
    Ok(atoms)
}

fn goals_of(alloc: Global, scope: Scope<'_>, texts: &[AtomText]) -> Result<GroundAtoms, PddlError>
    ensures { Gives result (each (ground_atom_of (naming_of scope.entry)) texts.now) }
{
    let mut goals = Vec::new(alloc);
    for text in texts {
        let goal = ground_atom_of(alloc, scope, text)?;
        push(&mut goals, goal)?;
    }
    Ok(GroundAtoms::of_vec(goals))
}

#[tactic(auto, unfolding(crate::specs::Stages::scene_of))]
fn scene_of(alloc: Global, domain: &Domain, problem: &Problem) -> Result<Scene, PddlError>
    ensures { Gives result (scene_of domain.now problem.now) }
{
    let types = types_of(alloc, Part::Domain, domain.types.as_slice())?;
    let known = objects_of(
        alloc,
        &types,
        domain.constants.as_slice(),
        problem.objects.as_slice(),
    )?;
    let preds = PredTable::of_texts(alloc, domain.preds.as_slice())?;
    Ok(Scene {
        types,
        known,
        preds,
    })
}

#[tactic(auto, unfolding(crate::specs::Stages::facts_in))]
fn facts_in(alloc: Global, scope: Scope<'_>, problem: &Problem) -> Result<Facts, PddlError>
    ensures { Gives result (facts_in (naming_of scope.entry) problem.now) }
{
    let opening = opening_of(alloc, scope, problem.init.as_slice())?;
    let goals = goals_of(alloc, scope, problem.goal.as_slice())?;
    Ok(Facts { opening, goals })
}

fn facts_of(alloc: Global, scene: &Scene, problem: &Problem) -> Result<Facts, PddlError>
    ensures { Gives result (facts_of scene.now problem.now) }
{
    let params = NameTable::new(alloc);
    let scope = Scope {
        part: Part::Problem,
        preds: &scene.preds,
        objects: &scene.known.names,
        params: &params,
    };
    facts_in(alloc, scope, problem)
}

// The schemas, and the types of their parameters.
fn parted(alloc: Global, typed: TypedSchemas) -> Result<(Schemas, Vec<TypeLists>), AllocError>
    ensures { IfOk result (λ parts. (parts.0 ≡ map (λ (typed : TypedSchema). typed.schema) typed)
        × (parts.1.items ≡ map (λ (typed : TypedSchema). typed.wanted) typed)) }
{
    let TypedSchemas { items } = typed;
    let mut schemas = Vec::new(alloc);
    let mut wanted = Vec::new(alloc);
    for typed in items {
        let TypedSchema {
            schema,
            wanted: types,
        } = typed;
        push(&mut schemas, schema)?;
        push(&mut wanted, types)?;
    }
    Ok((Schemas::of_vec(schemas), wanted))
}

fn schema_names(alloc: Global, schemas: &[Schema]) -> Result<NameTable, AllocError>
    ensures { IfOk result (λ names. names ≡ map (λ (schema : Schema). schema.name) schemas.now) }
{
    let mut names = NameTable::new(alloc);
    for schema in schemas {
        names = names.with_name(alloc, schema.name.copy(alloc)?)?;
    }
    Ok(names)
}

fn assembled(
    alloc: Global,
    declared: &[Typed],
    scene: Scene,
    typed: TypedSchemas,
    facts: Facts,
) -> Result<Lifted, AllocError>
    requires { IsFormed (assembled declared.now scene typed facts) }
    ensures { IfOk result (λ lifted. lifted ≡ assembled declared.now scene typed facts) }
{
    let subtypes = subtypes_of(alloc, &scene.types, declared)?;
    let (schemas, wanted) = parted(alloc, typed)?;
    let schema_names = schema_names(alloc, schemas.as_slice())?;
    Lifted::of_parts(scene, schemas, schema_names, wanted, subtypes, facts)
}

/// The lifted problem of a domain and a problem. Where a name means nothing, the error is the first such fault of the walk:
/// types; constants, then objects; of each action its parameters' kinds, its conditions, its effects; what the problem states;
/// its goals.
pub fn lift(alloc: Global, domain: &Domain, problem: &Problem) -> Result<Lifted, PddlError>
    ensures { Gives result (lifting_of domain.now problem.now) }
{
    let scene = scene_of(alloc, domain, problem)?;
    let typed = schemas_of(
        alloc,
        &scene.types,
        &scene.preds,
        &scene.known.names,
        domain.actions.as_slice(),
    )?;
    let facts = facts_of(alloc, &scene, problem)?;
    let lifted = assembled(alloc, domain.types.as_slice(), scene, typed, facts)?;
    Ok(lifted)
}
