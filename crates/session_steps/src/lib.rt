// One record of a session (document 01, "Records and the session program"): what a session holds, what the record is
// answered with, and what is held afterwards.
//
// A record has the effect of the call that it stands for. The functions serve the crate transcript, whose session goes
// over the records: it holds an arena, a group and orderings that are checked already.
#![tactic(auto)]

pub mod holding;
pub mod steps;
