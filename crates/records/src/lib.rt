// Records between packets and the memory: what those of a packet do to it, and those of our packets put where they are written.
#![tactic(auto)]

pub mod asked;
pub mod held;
pub mod packet;
pub mod put;
pub mod replies;
pub mod solicited;
pub mod standing;
pub mod summaries;
pub mod updates;
pub mod view;
