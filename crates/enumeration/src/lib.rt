// The walk over a dependency map (document 01, "Dependencies"): which orderings lead to a key. The enumerator is a struct
// of numbers that goes in and comes back by value; the walk has no recursion, the way down is kept in its frames.
//
// The functions of the modules serve the crates above, which hold a map that is checked already.
#![tactic(auto)]

pub mod marking;
pub mod prefixes;
pub mod walking;

use arena::Refusal;
use orderings::Ordering;

// A key on the way down: its place in the map, and which of its dependencies is next.
#[derive(Clone, Copy)]
pub struct Frame {
    pub place: usize,
    pub next: usize,
}

// Which dependencies of a key were expanded, with its target.
// Flat arrays with counts: the project works in fixed memory, without a heap.
#[derive(Clone, Copy)]
pub struct Seen {
    pub told: [bool; 16],
}

// The account of a walk: how many keys the way down has, these keys from the first on, and which pairs of target and
// dependency were expanded.
// Flat arrays with counts: the project works in fixed memory, without a heap.
#[derive(Clone, Copy)]
pub struct DependencyEnumerator {
    pub depth: usize,
    pub frames: [Frame; 1025],
    pub seen: [Seen; 64],
}

// What a turn of the walk came to: the ordering that was found, if one was, or that it has over 16 keys; and the account
// after it. A turn that stops the walk is refused with 6 or 7.
#[derive(Clone, Copy)]
pub struct Turned {
    pub leaf: Option<Result<Ordering, Refusal>>,
    pub walk: DependencyEnumerator,
}

// The orderings that were found: whether they pass the bounds (over 1,024, or one of over 16 keys), and else how many
// there are, and these.
// `over` stays a flag in place of a refusal: the walk goes on, since 6 and 7 come before 5, and these places with it.
// Flat arrays with counts: the project works in fixed memory, without a heap.
#[derive(Clone, Copy)]
pub struct Found {
    pub over: bool,
    pub count: usize,
    pub rows: [Ordering; 1024],
}

// What the walk from a key came to: the account and the orderings after it. A walk that stopped is refused with 6 or 7.
#[derive(Clone, Copy)]
pub struct Constructed {
    pub walk: DependencyEnumerator,
    pub found: Found,
}
