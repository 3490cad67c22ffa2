// SCSP packets written into a lent slice.
#![tactic(auto)]

mod put;
pub mod write;
