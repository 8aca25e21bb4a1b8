// Enumeration from a dependency map into lent output (document 01, "Dependencies").
//
// The functions of this file are the public calls and ask nothing of their caller: each checks the lent arena, the map and
// the keys for itself. An answer is written from the output's first place on: for each ordering its key count, then
// expression and options of each key, one ordering directly after the other. A refusal gives its number of document 01's
// table and leaves the output as it was.
#![tactic(auto)]

pub mod answering;
pub mod checking;
pub mod gathering;
pub mod writing;

ghost use Rattle.std.specs.Prelude.{◌≡◌};
ghost use Rattle.dependency_orderings.specs.Calls.{prefix_answer, generate_answer};

use answering::{answer_gathered, answer_prefixes};
use arena::Refusal;
use checking::{generate_number, prefix_number};
use dependencies::DependencyMap;
use dependencies::inserting::packed;
use gathering::gather;
use products::Lists;

// What an enumeration answers: how many orderings were written, and how many places of the output they take.
#[derive(Clone, Copy, Debug, PartialEq, Eq)]
pub struct Enumerated {
    pub count: usize,
    pub used: usize,
}

// What the walks of the given keys came to: how many different keys there were, 17 for more; the places of the map that
// were walked; whether more than 6 contributed; and their lists.
// Flat arrays with counts: the project works in fixed memory, without a heap.
#[derive(Clone, Copy)]
pub struct Gathered {
    pub different: usize,
    pub walked: [bool; 64],
    pub many: bool,
    pub lists: Lists,
}

// The prefix orderings of a key, which must be in the map but needs no target. Refusals: 12, 11, 1, 6, 7, 5, 8.
pub fn construct_prefix_orderings(
    cells: &[u32; 11265],
    map: DependencyMap,
    expr: u32,
    options: u32,
    out: &mut [u16],
) -> Result<Enumerated, Refusal>
    ensures { (result, out.new) ≡ prefix_answer cells.now map expr options out.old }
{
    prefix_number(cells, map, expr, options)?;
    answer_prefixes(map, packed(expr, options), out)
}

// The orderings of the keys that are given, each different one once: of each that has prefix orderings one, in all ways
// and all orders. Refusals: 12, 11, 1, 6, 7, 5, 8.
pub fn generate_dependency_orderings(
    cells: &[u32; 11265],
    map: DependencyMap,
    keys: &[u32],
    out: &mut [u16],
) -> Result<Enumerated, Refusal>
    ensures { (result, out.new) ≡ generate_answer cells.now map keys.now out.old }
{
    generate_number(cells, map, keys)?;
    answer_gathered(gather(map, keys), out)
}
