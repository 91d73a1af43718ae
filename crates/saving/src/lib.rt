//! A sealed dictionary goes onto any store as exactly the image of its pairs.
#![tactic(auto)]

mod counting;
mod refusal;
mod rows;
mod sealed;
mod storing;
mod writing;

pub use refusal::SaveRefusal;
pub use rows::Rows;
pub use rows::closed::closed_rows;
pub use sealed::save_sealed;
pub use storing::{Saved, save};
pub use writing::write_image;
