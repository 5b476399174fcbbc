//! Lists that the public contracts of all crates speak of: each is seen as the plain list of its items.

pub mod numbers;
pub mod text;
pub mod texts;
