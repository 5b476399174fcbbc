//! Lifted problems.

ghost use Rattle.std.specs.Prelude.{◌≡◌, ◌^◌, ◌<◌, length, map, IfOk, OnOk, IfSome};
ghost use Rattle.wp_lift.specs.Problem.{schema_at, fits, wanted_at};
ghost use Rattle.wp_lift.specs.Worlds.{among, first_false, after, unmet_goal, noted};
ghost use Rattle.wp_lift.specs.Formed.{IsFormed};
ghost use Rattle.wp_lift.specs.Stages.{joined};
ghost use Rattle.wp_lift.specs.declared.schemas.Schema.{Schema};
ghost use Rattle.wp_lift.specs.Names.{object_named, schema_named};

use crate::atoms::{Args, GroundAtoms};
use crate::fault::narrow;
use crate::lifting::{Facts, Scene};
use crate::meaning;
use crate::names::NameTable;
use crate::objects::Known;
use crate::schemas::{Preds, Schema, Schemas};
use crate::types::{Rows, TypeLists, is_any_below};
use crate::world::World;
use std::alloc::{AllocError, Global};
use std::marker::Model;
use wp_edge::{Text, Texts};

/// A planning problem over objects, predicates and action schemas, all by number.
#[derive(Drop)]
pub struct Lifted {
    objects: NameTable,
    kinds: TypeLists,
    preds: Preds,
    schemas: Schemas,
    schema_names: NameTable,
    wanted: Vec<TypeLists>,
    subtypes: Rows,
    opening: GroundAtoms,
    goals: GroundAtoms,
}

impl Model for Lifted {
    ghost use Rattle.wp_lift.specs.Problem.{Lifting};

    ghost Value = { Lifting };

    ghost use Rattle.wp_lift.specs.Kept.{given_by, IsKept};

    ghost view = { given_by };

    ghost invariant = { λ l. IsKept (given_by l) l.schema_names };
}

impl Lifted {
    /// The lifted problem of these parts. Predicates, schemas or goals that have no numbers of 32 bits are want of memory.
    pub(crate) fn of_parts(
        scene: Scene,
        schemas: Schemas,
        schema_names: NameTable,
        wanted: Vec<TypeLists>,
        subtypes: Rows,
        facts: Facts,
    ) -> Result<Lifted, AllocError>
        requires named { schema_names ≡ map (λ (schema : Schema). schema.name) schemas }
        requires formed { IsFormed (joined scene schemas wanted.items subtypes facts) }
        ensures { IfOk result (λ lifted. lifted ≡ joined scene schemas wanted.items subtypes facts) }
    {
        let Scene {
            types: _,
            known,
            preds,
        } = scene;
        let Known {
            names: objects,
            kinds,
        } = known;
        let Facts { opening, goals } = facts;
        let preds = preds.into_preds();
        let _preds = narrow(preds.as_slice().len())?;
        let _schemas = narrow(schemas.as_slice().len())?;
        let _goals = narrow(goals.as_slice().len())?;
        Ok(Lifted {
            objects,
            kinds,
            preds,
            schemas,
            schema_names,
            wanted,
            subtypes,
            opening,
            goals,
        })
    }

    /// The names of the objects.
    pub fn objects(&self) -> &Texts
        ensures value { result.now ≡ self.now.objects }
        ensures few { length self.now.objects < 2 ^ 32 }
    {
        self.objects.names()
    }

    /// The declared predicates.
    pub fn preds(&self) -> &Preds
        ensures value { result.now ≡ self.now.preds }
        ensures few { length self.now.preds < 2 ^ 32 }
    {
        &self.preds
    }

    /// The action schemas. What they and the other parts name by number is there.
    pub fn schemas(&self) -> &Schemas
        ensures value { result.now ≡ self.now.schemas }
        ensures few { length self.now.schemas < 2 ^ 32 }
        ensures formed { IsFormed self.now }
    {
        &self.schemas
    }

    /// The atoms that are true at the start, as the text states them: one may stand there twice.
    pub fn opening(&self) -> &GroundAtoms
        ensures { result.now ≡ self.now.opening }
    {
        &self.opening
    }

    /// The atoms that a plan has to make true.
    pub fn goals(&self) -> &GroundAtoms
        ensures value { result.now ≡ self.now.goals }
        ensures few { length self.now.goals < 2 ^ 32 }
    {
        &self.goals
    }

    /// The number of the object of a name. None exactly where no object has the name.
    pub fn object_of(&self, name: &Text) -> Option<u32>
        ensures value { result ≡ object_named self.now name.now }
        ensures in_range { IfSome result (λ number. number < length self.now.objects) }
    {
        self.objects.number_of(name)
    }

    /// The number of the action schema of a name. None exactly where no schema has the name.
    pub fn schema_of(&self, name: &Text) -> Option<u32>
        ensures value { result ≡ schema_named self.now name.now }
        ensures in_range { IfSome result (λ number. number < length self.now.schemas) }
    {
        self.schema_names.number_of(name)
    }

    /// How many parameters the schema has.
    pub fn arity_of(&self, schema: u32) -> u32
        requires { schema < length self.now.schemas }
        ensures { result ≡ (schema_at self.now schema).arity }
    {
        self.schema_at(schema).arity
    }

    /// The action schema of a number.
    pub fn schema_at(&self, schema: u32) -> &Schema
        requires { schema < length self.now.schemas }
        ensures { result.now ≡ schema_at self.now schema }
    {
        &self.schemas.as_slice()[schema as usize]
    }

    /// Whether the object has a type that is a subtype of one of the types of the schema's parameter at the place.
    pub fn fits(&self, schema: u32, place: u32, object: u32) -> bool
        ensures { result ≡ fits self.now schema place object }
    {
        is_any_below(
            &self.subtypes,
            self.kinds.at(object),
            self.wanted_at(schema, place),
        )
    }

    fn wanted_at(&self, schema: u32, place: u32) -> &[u32]
        ensures { result.now ≡ wanted_at self.now schema place }
    {
        match self.wanted.get(schema as usize) {
            Some(lists) => lists.at(place),
            None => &[],
        }
    }

    /// The world of the stated atoms.
    pub fn start(&self, alloc: Global) -> Result<World, AllocError>
        ensures { IfOk result (λ world. among world ≡ among self.now.opening) }
    {
        World::of_atoms(alloc, self.opening.as_slice())
    }

    /// The place of the schema's first condition, in text order, that does not hold for these objects.
    /// None exactly where all hold.
    pub fn first_false(
        &self,
        alloc: Global,
        schema: u32,
        args: &Args,
        world: &World,
    ) -> Result<Option<u32>, AllocError>
        requires { schema < length self.now.schemas }
        ensures value { IfOk result (λ place. place ≡ first_false self.now (record { schema = schema; args = args.now }) (among world.now)) }
        ensures in_range { IfOk result (λ found. IfSome found (λ place. place < length (schema_at self.now schema).conds)) }
    {
        let conds = self.schema_at(schema).conds.as_slice();
        let place = meaning::first_false(alloc, args.as_slice(), world, conds)?;
        Ok(place)
    }

    /// Makes the world what it is after the instance of the schema for these objects: what it deletes goes first, then
    /// what it adds comes. After want of memory the world is spent.
    pub fn after(&self, schema: u32, args: &Args, world: &mut World) -> Result<(), AllocError>
        requires { schema < length self.now.schemas }
        ensures { OnOk result (among world.new ≡ after self.now (record { schema = schema; args = args.now }) (among world.old)) }
    {
        let effects = self.schema_at(schema).effects.as_slice();
        let args = args.as_slice();
        meaning::delete_all(args, effects, world)?;
        meaning::add_all(args, effects, world)?;
        Ok(())
    }

    /// The place of the first goal atom, in text order, that is not in the world. None exactly where all are in it.
    pub fn unmet_goal(&self, world: &World) -> Option<u32>
        ensures value { result ≡ unmet_goal self.now (among world.now) }
        ensures in_range { IfSome result (λ place. place < length self.now.goals) }
    {
        match meaning::first_missing(world, self.goals.as_slice()) {
            Some(place) => Some(place as u32),
            None => None,
        }
    }
}
