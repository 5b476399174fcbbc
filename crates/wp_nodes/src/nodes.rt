//! The table of kept nodes.
ghost use Rattle.std.specs.Prelude.{◌≡◌, ◌≢◌, ℕ, ◌<◌, [], ◌∷◌, ◌++◌, List, None, length, All, Contains, IfOk, IfSome, IfNone, OnOk, OnErr, slice_get, slice_index_or, option_copied};
ghost use Rattle.std.specs.List.{AllPairs};
ghost use Rattle.wp_nodes.specs.KeptNodes.{node_of, HasState, IsKept, AreLinked};
ghost use Rattle.wp_nodes.specs.Links.{along, plan_in, FollowLinks, IsAlongLinks};

use crate::by_state::ByState;
use crate::kept::{Back, Kept};
use indexmap::IndexSet;
use std::alloc::{AllocError, Global};
use std::marker::Model;
use wp_task::{Atoms, State, Track};

/// The kept nodes, by rising number, and the tracks, each with its place as its number.
#[derive(Drop)]
pub struct Nodes {
    nodes: IndexSet<ByState>,
    tracks: Vec<Track>,
}

impl Model for Nodes {
    ghost use Rattle.wp_nodes.specs.KeptNodes.{Keeping, AreLinked};

    ghost Value = { Keeping };

    ghost view = { λ n. record { kept = n.nodes.keys; tracks = n.tracks.items } };

    ghost invariant = { λ n. AreLinked (record { kept = n.nodes.keys; tracks = n.tracks.items }) };
}

impl Nodes {
    /// No node and no track.
    pub fn new(alloc: Global) -> Nodes
        ensures { result ≡ record { kept = []; tracks = [] } }
    {
        Nodes {
            nodes: IndexSet::new(alloc),
            tracks: Vec::new(alloc),
        }
    }

    /// Keeps a track, and gives its number. Where memory is refused the track is dropped and nothing else changes.
    pub fn add_track(&mut self, track: Track) -> Result<u64, AllocError>
        ensures number { IfOk result (λ id. id ≡ length self.old.tracks) }
        ensures added { OnOk result (self.new ≡ record self.old { tracks = self.old.tracks ++ track ∷ [] }) }
        ensures refused { OnErr result (self.new ≡ self.old) }
    {
        let id = self.tracks.len() as u64;
        self.tracks.push(track)?;
        Ok(id)
    }

    /// Keeps a node. Where memory is refused the node is dropped and nothing else changes.
    pub fn add(&mut self, node: Kept) -> Result<(), AllocError>
        requires number { All (λ k. k.number < node.number) self.old.kept }
        requires state { All (λ k. k.state ≢ node.state) self.old.kept }
        requires parent { IfSome node.back (λ back. IsKept self.old.kept back.parent) }
        requires track { node.mark.track < length self.old.tracks }
        ensures added { OnOk result (self.new ≡ record self.old { kept = self.old.kept ++ node ∷ [] }) }
        ensures refused { OnErr result (self.new ≡ self.old) }
    {
        self.nodes.insert(ByState { node })?;
        Ok(())
    }

    /// The number of the kept node with a state.
    pub fn find(&self, state: &State) -> Option<u64>
        ensures found { IfSome result (HasState self.now.kept state.now) }
        ensures none { IfNone result (All (λ k. k.state ≢ state.now) self.now.kept) }
    {
        let found = self.nodes.get(state)?;
        Some(found.node.number)
    }

    /// The kept node of a number.
    pub fn get(&self, number: u64) -> Option<&Kept>
        ensures node { option_copied result ≡ node_of self.now.kept number }
        ensures found { IfSome result (λ k. Contains self.now.kept k.now × (k.now.number ≡ number)) }
        ensures none { IfNone result (All (λ k. k.number ≢ number) self.now.kept) }
        ensures track { IfSome result (λ k. k.now.mark.track < length self.now.tracks) }
        ensures linked { AreLinked self.now }
    {
        let place = place_of(self.nodes.as_slice(), number)?;
        let found = &self.nodes.as_slice()[place];
        Some(&found.node)
    }

    /// The track of a number.
    pub fn track(&self, id: u64) -> &Track
        requires { id < length self.now.tracks }
        ensures { result.now ≡ slice_index_or self.now.tracks id [] }
    {
        &self.tracks[id as usize]
    }

    /// The actions that lead from a root to a kept node.
    pub fn plan_to(&self, alloc: Global, number: u64) -> Result<Atoms, AllocError>
        requires { IsKept self.now.kept number }
        ensures plan { IfOk result (λ plan. plan ≡ plan_in self.now.kept number) }
        ensures links { IfOk result (IsAlongLinks self.now.kept number) }
    {
        let mut acts = Vec::new(alloc);
        let mut at = number;
        while let Some(back) = self.back_of(at) {
            acts.push(back.act)?;
            at = back.parent;
        }
        // The links lead back, so the last action came first.
        acts.reverse();
        Ok(Atoms::of_vec(acts))
    }

    /// The link of a kept node, whose parent has a lower number.
    fn back_of(&self, number: u64) -> Option<Back>
        requires { IsKept self.now.kept number }
        ensures link { (plans : ℕ → List ℕ) → FollowLinks self.now.kept plans → plans number ≡ along plans result }
        ensures parent { IfSome result (λ back. (back.parent < number) × IsKept self.now.kept back.parent) }
        ensures linked { AreLinked self.now }
    {
        self.get(number)?.back
    }
}

/// The place of the node of a number, among nodes whose numbers rise.
fn place_of(nodes: &[ByState], number: u64) -> Option<usize>
    requires { AllPairs (λ x y. x.number < y.number) nodes.now }
    ensures within { IfSome result (λ place. place < length nodes.now) }
    ensures found { IfSome result (λ place. node_of nodes.now number ≡ slice_get nodes.now place) }
    ensures none { IfNone result (node_of nodes.now number ≡ None) }
{
    nodes.binary_search_by_key(&number, |k| k.node.number).ok()
}
