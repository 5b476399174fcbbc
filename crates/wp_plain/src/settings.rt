//! What a search is asked for.
ghost use Rattle.std.specs.Prelude.{◌≡◌};
ghost use Rattle.wp_plain.specs.Expansion.{keeps};
ghost use Rattle.wp_plain.specs.Run.{WorkersPlayNoPart};

/// Which nodes are pruned: `KBfws` is k-BFWS, which prunes the nodes of a novelty above its width k and is incomplete;
/// `F5` is BFWS(f5), which prunes nothing (Lipovetzky and Geffner, AAAI 2017).
#[derive(Clone, Copy, Drop)]
pub enum Search {
    KBfws,
    F5,
}

/// The settings of a search, each in its range: the width (1 or 2 atoms in a tuple), the greatest number of expansions
/// (1 to 100,000,000) and of words for counter pairs times tuples (1 to 536,870,912). The ending depends on these and
/// on the kind of search; it does not depend on the number of workers (1 to 64), nor on how many first waiting nodes
/// have their children evaluated ahead (0 to 1,024).
#[derive(Clone, Copy, Drop)]
pub struct Settings {
    pub search: Search,
    pub width: u8,
    pub budget: u64,
    pub words: u64,
    pub workers: u32,
    pub ahead: u32,
}

/// A run is the same for every number of workers and of nodes whose children are evaluated ahead.
pub fn workers_play_no_part()
    ensures { WorkersPlayNoPart }
{}

/// Whether a child of this novelty is kept and waits; the root always is.
pub fn keeps(settings: &Settings, w: u8) -> bool
    ensures { result ≡ keeps settings.now.search settings.now.width w }
{
    match settings.search {
        Search::F5 => true,
        Search::KBfws => w <= settings.width,
    }
}
