// Sizes and places of the memory's layout, as specs/Layout.antt has them.

pub const ROWS: usize = 64;

pub const REQUESTS: usize = 64;

pub const PACKET: usize = 284;

pub const ID: usize = 4;

pub const KEY: usize = 16;

pub const PAYLOAD: usize = 32;

// Where the name stands in a row's body and in a request's room.
pub const NAME_PLACE: usize = 8;

// The number in a request's room.
pub const NUMBER_PLACE: usize = 4;

pub const ROW_SIZE: usize = 64;

// The sections lie one behind the other, an octet of each row in each: the public functions of server take one memory of 21,504 octets,
// and a search goes through the 64 octets of a section at once.
pub const LENGTHS_AT: usize = 4096;

pub const MARKS_AT: usize = 4160;

pub const TOPS_AT: usize = 4224;

pub const TAGS_AT: usize = 4288;

pub const REQUESTS_AT: usize = 4352;

pub const REQUEST_TAGS_AT: usize = 4354;

pub const ROOMS_AT: usize = 4418;

pub const REQUEST_SIZE: usize = 28;

pub const LIST_SIZE: usize = 1858;

pub const KEPT_AT: usize = 19216;

pub const KEPT_SIZE: usize = 286;
