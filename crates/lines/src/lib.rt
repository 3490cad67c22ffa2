// Document 01, 'The replay program': records of 292 octets to events, and their lines.
#![tactic(auto)]

pub mod chunk;
pub mod record;
pub mod run;
pub mod take;
pub mod text;
