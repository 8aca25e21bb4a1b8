// Orderings joined and shifted: the ordering of all orderings of a list, each ordering extended by each of another list, and
// every key's columns shifted by an offset.
#![tactic(auto)]

pub mod joining;
pub mod offsetting;

ghost use Rattle.std.specs.Prelude.{◌≡◌};
ghost use Rattle.ordering_joins.specs.Calls.{offset_answer, output_answer, join_answer};

use arena::Refusal;
use joining::{join_in, output_in};
use offsetting::offset_in;
use orderings::checking::{check_list, check_two};
use orderings::making::refusal;
use orderings::{Listed, Ordering, Orderings};

// Shifts every column of the keys by an offset, names kept, and adds the missing nodes. Refusals: 11, 1, 10, 3.
pub fn add_offset(cells: &mut [u32; 11265], list: Orderings, offset: i64) -> Listed
    ensures { (result, cells.new) ≡ offset_answer offset cells.old list }
{
    match check_list(cells, list) {
        Ok(()) => offset_in(cells, list, offset),
        Err(why) => refusal(why, list),
    }
}

// The joined ordering of all orderings. Refusals: 11, 1, 5.
pub fn output_ordering(cells: &[u32; 11265], list: Orderings) -> Result<Ordering, Refusal>
    ensures { result ≡ output_answer cells.now list }
{
    check_list(cells, list)?;
    output_in(list)
}

// Each ordering extended by each of another list; an empty other list keeps all. Refusals: 11, 1, 5.
pub fn join_suffix(cells: &[u32; 11265], list: Orderings, other: Orderings) -> Listed
    ensures { result ≡ join_answer cells.now list other }
{
    match check_two(cells, list, other) {
        Ok(()) => join_in(list, other),
        Err(why) => refusal(why, list),
    }
}
