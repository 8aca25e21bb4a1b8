// What the projection of each expression of an arena is, by a group and a mapping (document 01, "Classes"), as a table
// over all nodes.
//
// The function asks for an arena, a group and a mapping that are checked already, and changes nothing: what is missing
// of the projections is added by the crates above.
#![tactic(auto)]

pub mod table;
