// SCSP packets, read where they lie.
#![tactic(auto)]

mod check;
mod fine;
pub mod read;
pub mod record;
mod values;
