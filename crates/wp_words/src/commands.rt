//! Commands.

use wp_edge::Text;
use wp_plain::Settings;
use wp_watch::WatchKinds;

/// What is to be done. Names of files are text.
#[derive(Drop)]
pub enum Command {
    /// Searches for a plan of a problem. `watch` has each kind of watcher at most once, in the order of the words; `plain`
    /// asks for the search that scans lists, `closed` for a certificate where there is no plan.
    Plan {
        domain: Text,
        problem: Text,
        settings: Settings,
        watch: WatchKinds,
        plain: bool,
        closed: bool,
    },

    /// Says whether a plan is valid in a problem.
    Check {
        domain: Text,
        problem: Text,
        plan: Text,
    },

    /// Prints the task of a problem.
    Ground {
        domain: Text,
        problem: Text,
    },

    /// Makes a task from a number and a size, and searches for a plan of it; the others are those of `Plan`.
    Gen {
        number: u64,
        size: u32,
        settings: Settings,
        watch: WatchKinds,
        plain: bool,
    },

    /// Says whether the states of a certificate are closed in the task of a problem, so that it has no plan.
    Audit {
        domain: Text,
        problem: Text,
        certificate: Text,
    },
}
