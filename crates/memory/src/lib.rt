// The server's rows, marks, request lists and kept CAs, in one memory that the caller lends.
// Every function is below the events: it asks nothing of what the memory holds, but that a row which is handed in is the one that was found.
#![tactic(auto)]

pub mod entries;
pub mod kept;
mod layout;
pub mod marks;
mod moves;
pub mod names;
pub mod next;
pub mod requests;
mod room;
pub mod rows;
mod sizes;
pub mod store;
pub mod summaries;
mod tags;

// The memory that a host lends.
pub type Storage = [u8; 21504];
