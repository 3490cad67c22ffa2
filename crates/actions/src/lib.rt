// What events do in a slot, by sections of document 01: to the slot in the lent table, to the slot's part of the lent memory, and to the lent out slice.
#![tactic(auto)]

pub mod alignment;
pub mod due;
pub mod hello;
pub mod moves;
mod packets;
pub mod parts;
pub mod poll;
pub mod updates;
