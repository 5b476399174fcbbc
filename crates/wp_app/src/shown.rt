//! What is shown of a search that has ended.

use wp_edge::Text;

/// The line that stands before its text, where there is one, whether the steps of a plan are in it, and whether a certificate
/// stands behind it where there is no plan.
#[derive(Drop)]
pub struct Shown {
    pub front: Text,
    pub with_plan: bool,
    pub closed: bool,
}
