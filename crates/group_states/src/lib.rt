// A group as a lent array of numbers: read into its struct and written back. The crate states has the sizes and the
// layout of its cells.
//
// Reading asks nothing: any cells are read as some struct, which the call that is lent it checks.
#![tactic(auto)]

pub mod groups;
