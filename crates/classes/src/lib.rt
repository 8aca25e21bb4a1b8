// Groups of equality classes (document 01, "Classes"): which expressions must be equal, and which are constant.
//
// A class is its members in order of arrival and a constant: none, heterogeneous (one value a partition), uniform
// unknown, or uniform with a value. A group goes in by value and comes back by value, at most 64 classes and as
// many members as its limit says, 256 at the most.
//
// The functions of the modules serve the crates above, which hold a group that is checked already. Opening a group,
// its check and the question for a class stand in the crate group_checks, the calls that change a group in the crate
// conditions, the two questions in the crate questions.
#![tactic(auto)]

pub mod building;
pub mod constants;
pub mod finding;
pub mod refusing;
pub mod single;

use arena::Refusal;

// A group: its member limit, the number of its classes and of all members, and the tables. The members of all
// classes stand in class order in one table; unused places are 0.
// Flat arrays with counts: a state crosses to its callers as these numbers, and the project has no heap.
#[derive(Clone, Copy)]
pub struct Group {
    pub limit: usize,
    pub count: usize,
    pub used: usize,
    pub sizes: [usize; 64],
    pub flavours: [u32; 64],
    pub values: [u32; 64],
    pub members: [u32; 256],
}

// A constant: none, one value a partition, one value throughout that is not known, one value throughout. A group has its
// flavour (0, 1, 2, 3 in this order) and its value, 0 where none is known, in two tables.
#[derive(Clone, Copy, Debug, PartialEq, Eq)]
pub enum Constant {
    NoConstant,
    Heterogeneous,
    Unknown,
    Known(u32),
}

// What a call that changes a group answers, and the group afterwards: on a refusal the group as it was.
#[derive(Clone, Copy)]
pub struct Changed {
    pub answer: Result<bool, Refusal>,
    pub group: Group,
}
