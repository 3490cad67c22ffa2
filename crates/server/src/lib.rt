// The server: the eight events of document 01, and what a host may ask of it.
#![tactic(auto)]

pub mod answers;
pub mod codes;
pub mod ends;
pub mod events;
pub mod links;
pub mod own;
pub mod packet;
pub mod peers;
pub mod poll;
pub mod queries;
