// Join: the check of what is lent, the classes of both sides, and for Inner the pairs.
ghost use Rattle.std.specs.Prelude.{◌≡◌, ◌≤◌, ◌<◌, length};
ghost use Rattle.arena.specs.Layout.{decode as nodes};
ghost use Rattle.arena.specs.Calls.{in_cells};
ghost use Rattle.arena.specs.Refusals.{outcome};
ghost use Rattle.arena.specs.Inner.{Holds};
ghost use Rattle.classes.specs.Layout.{decode};
ghost use Rattle.classes.specs.Inner.{Coded, Held};
ghost use Rattle.merging.specs.Inner.{AllBelow};
ghost use Rattle.shifted_classes.specs.Lent.{pairs_lent};
ghost use Rattle.joins.specs.Calls.{join_number, join_shifted, join_by};
ghost use Rattle.shifted_classes.specs.Inner.{rights_lent, ReadyAll};
ghost use Rattle.joins.specs.Inner.{sides_number, There, BothHeld, JoinReady, equated_of, Joined};

use crate::kinds::kind_of;
use arena::Refusal;
use arena::adding::all_below;
use arena::cells::{node_count, wide};
use arena::checking::lawful_arena;
use classes::building::empty;
use classes::refusing::refusal;
use classes::{Changed, Group};
use conditions::equating::equal_condition_in;
use group_checks::checking::{in_set, lawful_group, members_below};
use merging::bridging::{from_classes, made};
use shifted_classes::right_side::{
    add_shifted, lift_of_size, members_move, rights_move, shift_members, shift_rights,
};
use shifting::shifting::{movable, shift};

// The check of two groups, a kind and pairs. Refusals: 12, 11, 1, whichever is first.
pub fn join_number(
    cells: &[u32; 11265],
    left: Group,
    right: Group,
    kind: u32,
    pairs: &[u32],
) -> Result<(), Refusal>
    ensures { result ≡ outcome (join_number cells.now left right kind pairs.now) }
{
    if 9 < kind {
        return Err(Refusal::BadNumber);
    }
    if !in_set(left) {
        return Err(Refusal::BadNumber);
    }
    if !in_set(right) {
        return Err(Refusal::BadNumber);
    }
    if !lawful_arena(cells) {
        return Err(Refusal::BadState);
    }
    if !lawful_group(cells, left) {
        return Err(Refusal::BadState);
    }
    if !lawful_group(cells, right) {
        return Err(Refusal::BadState);
    }
    if pairs.len() % 2 != 0 {
        return Err(Refusal::BadState);
    }
    sides_number(cells, left, right, pairs)
}

// The check of members and sides. Refusal: 1 where one is not below the node count.
fn sides_number(
    cells: &[u32; 11265],
    left: Group,
    right: Group,
    pairs: &[u32],
) -> Result<(), Refusal>
    requires { Holds cells.now × ((left.used ≤ 256) × (right.used ≤ 256)) }
    ensures { result ≡ outcome (sides_number (nodes cells.now) left right pairs.now) }
{
    let n = node_count(cells);
    if !members_below(&left.members, left.used, n) {
        return Err(Refusal::UnknownExpression);
    }
    if !members_below(&right.members, right.used, n) {
        return Err(Refusal::UnknownExpression);
    }
    if !all_below(pairs, n) {
        return Err(Refusal::UnknownExpression);
    }
    Ok(())
}

// The pairs as equal conditions, one after the other: their right sides shifted, which the arena has by now.
// Refusal: 4.
fn equate_pairs(
    cells: &mut [u32; 11265],
    memo: &mut [u32; 1024],
    g: Group,
    pairs: &[u32],
    lift: u32,
) -> Changed
    requires { (Held (nodes cells.old) g × (g.limit ≡ 256)) × (AllBelow (length (nodes cells.old)) pairs.now × (ReadyAll lift cells.old memo.old (rights_lent pairs.now) × There lift cells.old (rights_lent pairs.now))) }
    ensures { (cells.new ≡ cells.old) × (result ≡ equated_of lift cells.old g pairs.now) }
{
    let mut out = g;
    for k in 0..pairs.len() / 2 {
        let Ok(e) = shift(cells, memo, pairs[2 * k + 1], lift) else {
            return refusal(Refusal::GroupFull, g);
        };
        let next = equal_condition_in(cells, out, pairs[2 * k], e);
        if let Err(why) = next.answer {
            return refusal(why, g);
        }
        out = next.group;
    }
    made(out)
}

// The join of two sides whose expressions can move, by a lift: the nodes first, then the list, then the pairs.
// Refusals: 3, 4, and then the arena may have grown.
fn join_placed(
    cells: &mut [u32; 11265],
    left: Group,
    right: Group,
    lift: u32,
    pairs: &[u32],
) -> Changed
    requires { JoinReady lift cells.old left right pairs.now }
    ensures { Joined lift cells.old cells.new left right pairs.now result }
{
    let mut memo = [0u32; 1024];
    let Ok(members) = shift_members(cells, &mut memo, right, lift) else {
        return refusal(Refusal::ArenaFull, left);
    };
    if shift_rights(cells, &mut memo, pairs, lift).is_err() {
        return refusal(Refusal::ArenaFull, left);
    }
    if 64 < left.count + right.count {
        return refusal(Refusal::GroupFull, left);
    }
    if 256 < left.used + right.used {
        return refusal(Refusal::GroupFull, left);
    }
    let list = add_shifted(cells, left, right, members);
    equate_pairs(
        cells,
        &mut memo,
        from_classes(made(list).group),
        pairs,
        lift,
    )
}

// A join that shifts the right side by the number of left columns. Refusals: 10, 3, 4, with group and cells as they
// were.
fn join_shifted(
    cells: &mut [u32; 11265],
    left: Group,
    right: Group,
    left_size: usize,
    pairs: &[u32],
) -> Changed
    requires { BothHeld cells.old left right pairs.now }
    ensures { (result, cells.new) ≡ in_cells (join_shifted left (decode right) left_size (pairs_lent pairs.now) (nodes cells.old)) }
{
    let lift = lift_of_size(left_size);
    let table = movable(cells, node_count(cells), lift);
    if !members_move(&table, right) {
        return refusal(Refusal::IndexOutOfRange, left);
    }
    if !rights_move(&table, pairs) {
        return refusal(Refusal::IndexOutOfRange, left);
    }
    let saved = *cells;
    let joined = join_placed(cells, left, right, lift, pairs);
    if let Err(why) = joined.answer {
        *cells = saved;
        return refusal(why, left);
    }
    joined
}

// A join by its kind. Refusals: 10, 3, 4, with group and cells as they were.
pub fn join_by(
    cells: &mut [u32; 11265],
    left: Group,
    right: Group,
    kind: u32,
    left_size: usize,
    pairs: &[u32],
) -> Changed
    requires { BothHeld cells.old left right pairs.now × (kind < 10) }
    ensures { (result, cells.new) ≡ in_cells (join_by left right kind left_size (pairs_lent pairs.now) (nodes cells.old)) }
{
    let entry = kind_of(wide(kind));
    if entry.shifted {
        if entry.pairs {
            return join_shifted(cells, left, right, left_size, pairs);
        }
        return join_shifted(cells, left, right, left_size, &pairs[..0]);
    }
    if entry.left {
        return made(left);
    }
    if entry.right {
        return made(right);
    }
    made(empty(256))
}
