// One ordering of each of some lists in all ways, and each such choice in all orders (document 01, "Dependencies"). Each
// choice and each order is made from its number; nothing is kept of the one before it.
//
// The functions of the modules serve the crates above, which hold lists that are within the bounds.
#![tactic(auto)]

pub mod choosing;
pub mod ordering;

use enumeration::Found;
use orderings::Ordering;

// How many lists there are, and where each ends among the orderings of all of them.
// Flat arrays with counts: the project works in fixed memory, without a heap.
#[derive(Clone, Copy)]
pub struct Shape {
    pub size: usize,
    pub ends: [usize; 6],
}

// Lists of orderings: where each ends, and the orderings of all of them, list after list.
#[derive(Clone, Copy)]
pub struct Lists {
    pub shape: Shape,
    pub found: Found,
}

// One ordering of each list: how many they are, and these; unused places are empty orderings.
// Flat arrays with counts: the project works in fixed memory, without a heap.
#[derive(Clone, Copy)]
pub struct Choice {
    pub size: usize,
    pub rows: [Ordering; 6],
}

// An order of places: how many places there are, and these; unused places are 0.
// Flat arrays with counts: the project works in fixed memory, without a heap.
#[derive(Clone, Copy)]
pub struct Order {
    pub size: usize,
    pub places: [usize; 6],
}
