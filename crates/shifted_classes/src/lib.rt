// The classes of the right side of a join, shifted behind the left one (document 01, "Classes"): which expressions can
// move, the numbers of what they are shifted to, and the classes built from these numbers.
//
// The functions serve the crate joins, which holds an arena and groups that are checked already, and say in `requires`
// what they ask.
#![tactic(auto)]

pub mod right_side;
