//! What may go from one thread to another.

use crate::brood::Brood;

/// Asks of a type that its values may be given to another thread, and be looked at by several.
fn is_sent<T: Send + Sync>(_: &T) {}

/// A brood is made by a job and taken by another thread. Where a part of one may not go there, this is refused.
pub fn broods_are_sent(brood: &Brood) {
    is_sent(brood);
}
