//! Trials of images: saved and loaded back, and damaged ones beside a plain reading of the rules.
#![tactic(auto)]

pub mod damage;
pub mod made_up;
pub mod report;
pub mod saved;
