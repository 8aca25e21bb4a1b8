// Reduction of lists of orderings (`remove_redundant_entries`), and the calls that make a list from lists of keys, lent as
// numbers, and reduce it.
#![tactic(auto)]

pub mod lent;
pub mod reducing;

ghost use Rattle.std.specs.Prelude.{◌≡◌};
ghost use Rattle.reduction.specs.Calls.{add_answer, new_answer, extend_answer};

use lent::{add_in, extend_number, lent_number};
use orderings::making::{no_orderings, refusal};
use orderings::{Listed, Orderings};

// What comparing two orderings came to: how the comparing goes on (0 with the next, 1 with the same place, 2 from the
// first place anew), how many cuts were made, and the list.
#[derive(Clone, Copy)]
pub struct Contest {
    pub way: u32,
    pub cuts: usize,
    pub list: Orderings,
}

// What a loop of the reduction came to: the place where the next one goes on, the cuts so far, and the list.
#[derive(Clone, Copy)]
pub struct Turned {
    pub next: usize,
    pub cuts: usize,
    pub list: Orderings,
}

// What reduction came to: the list, and how many cuts and passes were made.
#[derive(Clone, Copy)]
pub struct Reduction {
    pub list: Orderings,
    pub cuts: usize,
    pub passes: usize,
}

// Adds orderings that are built from lists of keys, lent as numbers, and reduces. Refusals: 12, 11, 1, 5.
pub fn add_orderings(cells: &[u32; 11265], list: Orderings, numbers: &[u16]) -> Listed
    ensures { result ≡ add_answer cells.now list numbers.now }
{
    match lent_number(cells, list, numbers) {
        Ok(()) => add_in(list, numbers),
        Err(why) => refusal(why, list),
    }
}

// A new list of orderings that are built from lists of keys, lent as numbers, reduced. Refusals: 12, 11, 1, 5, with an
// empty list.
pub fn new(cells: &[u32; 11265], numbers: &[u16]) -> Listed
    ensures { result ≡ new_answer cells.now numbers.now }
{
    add_orderings(cells, no_orderings(), numbers)
}

// Extends a list by orderings, lent as numbers, and reduces. Refusals: 12, 11, 1, 5.
pub fn extend(cells: &[u32; 11265], list: Orderings, numbers: &[u16]) -> Listed
    ensures { result ≡ extend_answer cells.now list numbers.now }
{
    match extend_number(cells, list, numbers) {
        Ok(()) => add_in(list, numbers),
        Err(why) => refusal(why, list),
    }
}
