// Projection mappings (document 01, "Classes"): at most 64 sources, 1 to 8 targets each, lent as numbers, checked and
// laid out once for the walks that read them.
//
// The functions serve the crates above, which hold the calls; the check asks nothing of its caller.
#![tactic(auto)]

pub mod lent;

// A source: its expression, how many targets it has, and the targets; unused places are 0.
// Flat arrays with counts: the project works in fixed memory, without a heap.
#[derive(Clone, Copy)]
pub struct Source {
    pub expr: u32,
    pub size: usize,
    pub targets: [u32; 8],
}

// A mapping: how many sources it has, and the sources in their order; unused places have none.
// Flat arrays with counts: the project works in fixed memory, without a heap.
#[derive(Clone, Copy)]
pub struct Mapping {
    pub count: usize,
    pub list: [Source; 64],
}
