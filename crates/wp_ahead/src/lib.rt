//! Broods made ahead: the evaluated successors of nodes that still wait, made by jobs before the nodes are taken.
//!
//! Callers see a finite map from numbers to broods (`specs/KeptBroods.antt`), and jobs that each own a copy of what a node
//! keeps (`specs/Jobs.antt`). `jobs` looks at the front of the open list: broods of other nodes are dropped, and each node
//! there that has none gets a job. Any thread may `work` a job, since the brood is a function of the task and of the copies
//! alone; `keep` puts what was made into the map, and `take` hands it out once. So a brood is the one that would be made
//! when the node is taken, and a job that is refused for want of memory leaves none. It starts no thread and knows
//! nothing of repeats or novelty.
#![tactic(auto)]

pub mod broods;
mod front;
pub mod job;
pub mod laws;
mod made;
pub mod working;

pub use broods::Broods;
pub use job::{AheadJob, AheadJobs, Outcome};
pub use laws::{broods_go_on_fitting, jobs_are_sent, jobs_can_be_worked, worked_jobs_fit};
pub use working::work;
