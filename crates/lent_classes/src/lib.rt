// Lists of classes as they are lent, in numbers (document 01, "Classes"): the check of such a list, and its classes read
// into a group's tables.
//
// The check asks nothing of its caller. The reading asks for a list that has passed it.
#![tactic(auto)]

pub mod lent;
