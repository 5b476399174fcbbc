//! Nodes, as the search lists them.
ghost use Rattle.std.specs.Prelude.{◌≡◌, ◌==◌, ◌&&◌, false};
ghost use Rattle.std.specs.List.{list_all};
ghost use Rattle.std.specs.Bool.{beq};
ghost use Rattle.std.specs.Cmp.Lexicographic.{pointwise};
ghost use Rattle.wp_task.specs.Set.{has};
ghost use Rattle.wp_task.specs.Novelty.{is_earlier};
ghost use Rattle.wp_plain.specs.Nodes.{comes_before};
ghost use Rattle.wp_plain.specs.Expansion.{born_of, event_of};

use std::marker::Model;
use wp_task::State;
use wp_watch::{Born, Borns, Event};

/// A generated node: its number, its counters #g and #r, and its state.
#[derive(Drop)]
pub(crate) struct GeneratedNode {
    number: u64,
    g: u32,
    r: u32,
    state: State,
}

impl Model for GeneratedNode {
    ghost use Rattle.wp_task.specs.Novelty.{Generated};

    ghost Value = { Generated };

    ghost view = { λ n. record { number = n.number; counters = (n.g, n.r); state = n.state } };
}

impl GeneratedNode {
    pub(crate) fn of(number: u64, g: u32, r: u32, state: State) -> GeneratedNode
        ensures { result ≡ record { number = number; counters = (g, r); state = state } }
    {
        GeneratedNode {
            number,
            g,
            r,
            state,
        }
    }

    pub(crate) fn state(&self) -> &State
        ensures { result.now ≡ self.now.state }
    {
        &self.state
    }

    /// Whether this node was generated before x with its counters.
    fn is_earlier(&self, x: &GeneratedNode) -> bool
        ensures { result ≡ is_earlier x.now self.now }
    {
        self.number < x.number && self.g == x.g && self.r == x.r
    }

    /// Whether the whole tuple is true here.
    fn has_all(&self, tuple: &[u32]) -> bool
        ensures { result ≡ list_all (has self.now.state) tuple.now }
    {
        tuple.iter().all(|p| self.state.has(*p))
    }

    /// Whether this node, by being there earlier, makes a tuple old for x.
    pub(crate) fn makes_old(&self, x: &GeneratedNode, tuple: &[u32]) -> bool
        ensures { result ≡ (is_earlier x.now self.now && list_all (has self.now.state) tuple.now) }
    {
        self.is_earlier(x) && self.has_all(tuple)
    }
}

/// A numbered node: its novelty, whether it is kept, and whether it waits for its expansion.
#[derive(Drop)]
pub(crate) struct SearchNode {
    generated: GeneratedNode,
    w: u8,
    kept: bool,
    waits: bool,
}

impl Model for SearchNode {
    ghost use Rattle.wp_plain.specs.Nodes.{Node};

    ghost Value = { Node };

    ghost view = { λ n. record { generated = n.generated; w = n.w; kept = n.kept; waits = n.waits } };
}

impl SearchNode {
    /// A node that waits where it is kept.
    pub(crate) fn of(generated: GeneratedNode, w: u8, kept: bool) -> SearchNode
        ensures { result ≡ record { generated = generated; w = w; kept = kept; waits = kept } }
    {
        SearchNode {
            generated,
            w,
            kept,
            waits: kept,
        }
    }

    pub(crate) fn generated(&self) -> &GeneratedNode
        ensures { result.now ≡ self.now.generated }
    {
        &self.generated
    }

    pub(crate) fn is_kept(&self) -> bool
        ensures { result ≡ self.now.kept }
    {
        self.kept
    }

    pub(crate) fn waits(&self) -> bool
        ensures { result ≡ self.now.waits }
    {
        self.waits
    }

    /// Whether no goal is unmet.
    pub(crate) fn has_goals(&self) -> bool
        ensures { result ≡ (self.now.generated.counters.0 == 0) }
    {
        self.generated.g == 0
    }

    /// Whether it is kept with this state.
    pub(crate) fn is_kept_at(&self, state: &State) -> bool
        ensures { result ≡ (self.now.kept && pointwise beq state.now self.now.generated.state) }
    {
        self.kept && *state == self.generated.state
    }

    pub(crate) fn comes_before(&self, other: &SearchNode) -> bool
        ensures { result ≡ comes_before self.now other.now }
    {
        self.w < other.w
            || self.w == other.w
                && (self.generated.g < other.generated.g
                    || self.generated.g == other.generated.g
                        && self.generated.number < other.generated.number)
    }

    /// What is told of its expansion.
    pub(crate) fn event(&self, repeats: u64, born: Borns) -> Event
        ensures { result ≡ event_of self.now repeats born }
    {
        Event {
            number: self.generated.number,
            w: self.w,
            g: self.generated.g,
            r: self.generated.r,
            repeats,
            born,
        }
    }

    /// What is told of it where this action led to it.
    pub(crate) fn born(&self, act: u32) -> Born
        ensures { result ≡ born_of (record { act = act; state = self.now.generated.state }) self.now }
    {
        Born {
            number: self.generated.number,
            act,
            w: self.w,
            g: self.generated.g,
            r: self.generated.r,
            kept: self.kept,
        }
    }

    /// It waits no longer.
    pub(crate) fn leave(&mut self)
        ensures { self.new ≡ record self.old { waits = false } }
    {
        self.waits = false;
    }
}
