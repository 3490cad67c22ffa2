// The parts of the server that go in by value and come back: settings, slots, answers, and how the machines of a slot move.
#![tactic(auto)]

pub mod alignment;
pub mod answers;
pub mod hello;
pub mod rule;
pub mod state;
pub mod times;
