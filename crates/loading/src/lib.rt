//! Loading an image: every field of it is tested before anything is read from it.
#![tactic(auto)]

mod arcs;
mod ending;
mod head;
mod held;
mod records;
mod refusal;
mod steps;
mod whole;

pub use held::{Loaded, load};
pub use refusal::LoadRefusal;
pub use steps::{keys_at, record_place};
