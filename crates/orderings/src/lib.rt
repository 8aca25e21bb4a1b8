// Orderings and lists of them (document 01, "Orderings"): which orders already hold.
//
// A key is an expression and options 0 to 3, one number: expression · 4 + options. An ordering has 1 to 16 keys, no
// expression twice; a list has at most 32 orderings. A list goes in by value and comes back by value.
#![tactic(auto)]

pub mod checking;
pub mod making;
pub mod pushing;

ghost use Rattle.std.specs.Prelude.{◌≡◌};
ghost use Rattle.arena.specs.Refusals.{outcome};
ghost use Rattle.orderings.specs.Calls.{list_number, clear_answer};

use arena::Refusal;
use checking::check_list;
use making::{no_orderings, refusal};

// An ordering: how many keys it has, and the keys; unused places are 0.
// Flat arrays with counts: a state crosses to its callers as these numbers, and the project has no heap.
#[derive(Clone, Copy)]
pub struct Ordering {
    pub size: usize,
    pub keys: [u16; 16],
}

// A list of orderings: how many there are, and the orderings; unused places are empty orderings.
// Flat arrays with counts: a state crosses to its callers as these numbers, and the project has no heap.
#[derive(Clone, Copy)]
pub struct Orderings {
    pub count: usize,
    pub list: [Ordering; 32],
}

// What a call that makes a list answers: whether it is done, and the list; beside a refusal the list that was given.
#[derive(Clone, Copy)]
pub struct Listed {
    pub done: Result<(), Refusal>,
    pub list: Orderings,
}

// The check of a lent list: done, or refusal 11 or 1, whichever is first.
pub fn check(cells: &[u32; 11265], list: Orderings) -> Result<(), Refusal>
    ensures { result ≡ outcome (list_number cells.now list) }
{
    check_list(cells, list)
}

// An empty list. Refusals: 11, 1.
pub fn clear(cells: &[u32; 11265], list: Orderings) -> Listed
    ensures { result ≡ clear_answer cells.now list }
{
    match check_list(cells, list) {
        Ok(()) => Listed {
            done: Ok(()),
            list: no_orderings(),
        },
        Err(why) => refusal(why, list),
    }
}
