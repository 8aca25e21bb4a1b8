// The library that an engine links: every call of document 01 as one function, on numbers, slices and references to arrays
// alone. The crate galthumir_c exports each of them under its name, and include/galthumir.h is what they look like from C.
//
// A state crosses as the caller's own array of numbers (the crate states says how it lies there). Each function returns 0,
// or the number of the refusal, and a refusal leaves every array as it was. What the call answers is written into the array
// `answer`, a state that it makes into `made`, all of it and only where the call is done. Each function calls the function
// of the same name of the crates below once, which checks what it is lent once.
#![tactic(auto)]

pub mod expressions;
pub mod groups;
pub mod maps;
pub mod orders;
pub mod sessions;

// The numbers of refusals, in the order in which they are tested.
pub const DONE: u32 = 0;

pub const REFUSED_MALFORMED: u32 = 9;

pub const REFUSED_NUMBER: u32 = 12;

pub const REFUSED_STATE: u32 = 11;

pub const REFUSED_EXPRESSION: u32 = 1;

pub const REFUSED_CHILDREN: u32 = 2;

pub const REFUSED_INDEX: u32 = 10;

pub const REFUSED_UNKNOWN_KEY: u32 = 6;

pub const REFUSED_NO_TARGET: u32 = 7;

pub const REFUSED_ARENA_FULL: u32 = 3;

pub const REFUSED_GROUP_FULL: u32 = 4;

pub const REFUSED_TOO_LARGE: u32 = 5;

pub const REFUSED_OUTPUT_SHORT: u32 = 8;

// The bounds.
pub const MAX_NODES: usize = 1024;

pub const MAX_CHILDREN: usize = 8;

pub const MAX_CLASSES: usize = 64;

pub const MAX_MEMBERS: usize = 256;

pub const MAX_ORDERINGS: usize = 32;

pub const MAX_KEYS: usize = 16;

pub const MAX_MAP_KEYS: usize = 64;

pub const MAX_DEPENDENCIES: usize = 16;

pub const MAX_SOURCES: usize = 64;

pub const MAX_TARGETS: usize = 8;

pub const MAX_ENUMERATED: usize = 1024;

pub const MAX_SESSION_BYTES: usize = 65536;

pub const SESSION_OUTPUT: usize = 131096;

pub const ENUMERATION_OUTPUT: usize = 33792;
