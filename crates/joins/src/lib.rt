// Groups of the two sides of a join, combined by its kind (document 01, "Classes"): the right side shifted behind the
// left one, and for Inner the pairs.
//
// The function of this file is the public call and asks nothing of its caller: it checks what it is lent for itself, and
// a refusal gives its number of document 01's table and leaves everything as it was. Those of the modules serve the
// crates above, which hold an arena and groups that are checked already.
#![tactic(auto)]

pub mod joining;
pub mod kinds;

ghost use Rattle.std.specs.Prelude.{◌≡◌};
ghost use Rattle.joins.specs.Calls.{join_answer};

use classes::refusing::refusal;
use classes::{Changed, Group};
use joining::{join_by, join_number};

// What a kind of join keeps: the left side, the right side, the right side shifted behind the left one, and the pairs
// as equal conditions.
#[derive(Clone, Copy)]
pub struct JoinKind {
    pub left: bool,
    pub right: bool,
    pub shifted: bool,
    pub pairs: bool,
}

// Combines the groups of the two sides of a join. The kinds are 0 Inner, 1 Left, 2 Full, 3 Right, 4 LeftSemi,
// 5 LeftAnti, 6 LeftMark, 7 RightSemi, 8 RightAnti, 9 RightMark. `left_size` is the number of left columns; `pairs` has
// left and right of each condition, one after the other, the right sides as they stand before the shift. The limit is
// 256. Refusals: 12, 11, 1, 10, 3, 4, with the left group as it was.
pub fn join(
    cells: &mut [u32; 11265],
    left: Group,
    right: Group,
    kind: u32,
    left_size: usize,
    pairs: &[u32],
) -> Changed
    ensures { (result, cells.new) ≡ join_answer cells.old left right kind left_size pairs.now }
{
    if let Err(why) = join_number(cells, left, right, kind, pairs) {
        return refusal(why, left);
    }
    join_by(cells, left, right, kind, left_size, pairs)
}
