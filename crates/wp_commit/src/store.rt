//! The fast store: kept nodes by their states, and an open list. The novelty tables are lent to it.

use crate::births::Numbered;
use crate::evaluation::{Expansion, children_at};
use crate::keep::keep_expansion;
use crate::lent::Shown;
use crate::run::Run;
use crate::searched::{Searched, counts_of, node_at};
use crate::telling::told_of;
use std::alloc::{AllocError, Global};
use std::marker::PhantomData;
use wp_ahead::{AheadJobs, Broods, broods_go_on_fitting};
use wp_count::{Child, counters_are_carried};
use wp_novel::Pair;
use wp_plain::{BestFirst, Counts, children_are_numbered, first_is_least, nodes_are_numbered};
use wp_task::Atoms;
use wp_watch::Event;

/// What a run needs throughout, what the search keeps, the broods that were made ahead, and how many pairs are open in the tables. What is
/// done to the tables is done by `find`, which gives the pairs of children that are to be opened, and by `enter`, which enters an
/// expansion.
#[derive(Drop)]
pub(crate) struct Store<'a, T, F, E> {
    pub run: Run<'a>,
    pub find: F,
    pub enter: E,
    pub searched: Searched,
    pub broods: Broods,
    pub pairs: u64,
    pub lent: PhantomData<T>,
}

impl<
    'a,
    T: Shown,
    F: Fn(&T, &[Child]) -> Result<Vec<Pair>, AllocError>,
    E: Fn(
        &Run,
        &Searched,
        &mut T,
        &mut Broods,
        u64,
        Expansion,
    ) -> Result<(Numbered, AheadJobs), AllocError>,
> BestFirst for Store<'a, T, F, E> {
    ghost use Rattle.wp_commit.specs.Searched.{HoldsAt, StandsAt, IsTakenAt};
    ghost use Rattle.wp_commit.specs.Expansions.{IsExpansionOf};
    ghost use Rattle.wp_commit.specs.Lending.{IsRunOf, WorksOn};

    type Expansion = Expansion;

    type Lent = T;

    ghost stands = { λ s lent asked m. IsRunOf (WorksOn F.Fn E.Fn T.shown s.find s.enter) s.run asked s.pairs (T.shown lent) s.searched.nodes s.broods
        × StandsAt s.run.task s.run.settings s.searched (T.shown lent) m };

    ghost holds = { λ s lent asked m. IsRunOf (WorksOn F.Fn E.Fn T.shown s.find s.enter) s.run asked s.pairs (T.shown lent) s.searched.nodes s.broods
        × HoldsAt s.run.task s.run.settings s.searched (T.shown lent) m };

    ghost has_taken = { λ s lent asked m node number. IsRunOf (WorksOn F.Fn E.Fn T.shown s.find s.enter) s.run asked s.pairs (T.shown lent) s.searched.nodes s.broods
        × IsTakenAt s.run.task s.run.settings s.searched (T.shown lent) m node number };

    ghost has_evaluated = { λ s lent asked m node number x. IsRunOf (WorksOn F.Fn E.Fn T.shown s.find s.enter) s.run asked s.pairs (T.shown lent) s.searched.nodes s.broods
        × IsTakenAt s.run.task s.run.settings s.searched (T.shown lent) m node number
        × IsExpansionOf s.run.task s.searched (T.shown lent) number x };

    ghost standing_holds = { λ s lent asked m stands. (stands.0, stands.1.holds) };

    ghost taken_holds = { λ s lent asked m node number taken. (taken.0, taken.1.holds) };

    ghost evaluated_holds = { λ s lent asked m node number x evaluated. (evaluated.0, evaluated.1.holds) };

    fn take(&mut self) -> Option<u64> {
        // By this law the node that is taken is the definition's first one.
        first_is_least();
        self.searched.queue.take()
    }

    fn has_goals(&self, number: u64) -> bool {
        node_at(&self.searched, number).mark.g == 0
    }

    fn plan_to(&self, alloc: Global, number: u64) -> Result<Atoms, AllocError> {
        let node = node_at(&self.searched, number);
        self.searched.nodes.plan_to(alloc, node.number)
    }

    fn counts(&self) -> Counts {
        counts_of(&self.searched, self.pairs)
    }

    fn evaluate(
        &mut self,
        _run: &wp_plain::Run,
        lent: &T,
        number: u64,
    ) -> Result<(u64, Expansion), AllocError> {
        // By the law of the counters those of the children are those of their whole paths, and by the others nodes and
        // children are numbered as the definition's are.
        counters_are_carried();
        children_are_numbered();
        nodes_are_numbered();
        let (children, repeats) = children_at(
            &mut self.run,
            &self.searched,
            &mut self.broods,
            number,
        )?;
        let pairs = (self.find)(lent, &children)?;
        let needed = self.pairs + pairs.len() as u64;
        Ok((
            needed,
            Expansion {
                children,
                repeats,
                pairs,
            },
        ))
    }

    fn admit(
        &mut self,
        run: &wp_plain::Run,
        lent: &mut T,
        number: u64,
        expansion: Expansion,
        wanted: bool,
    ) -> Result<Option<Event>, AllocError> {
        counters_are_carried();
        children_are_numbered();
        nodes_are_numbered();
        // By this law broods are those of their nodes where nodes are added.
        broods_go_on_fitting();
        let node = node_at(&self.searched, number);
        let pairs = self.pairs + expansion.pairs.len() as u64;
        let (numbered, aheads) = (self.enter)(
            &self.run,
            &self.searched,
            lent,
            &mut self.broods,
            number,
            expansion,
        )?;
        self.pairs = pairs;
        let told = told_of(&self.run, node, &numbered, wanted)?;
        let track = node.mark.track;
        keep_expansion(&mut self.searched, run.settings(), number, track, numbered)?;
        self.broods.keep(aheads)?;
        Ok(told)
    }
}
