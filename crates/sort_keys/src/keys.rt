// Normal forms of sort keys, over an arena and a group that are checked already.
ghost use Rattle.std.specs.Prelude.{◌≡◌, [], ◌<◌, ◌≤◌, ◌+◌, ◌*◌, ◌/◌, ltb, length, get_or};
ghost use Rattle.laws.specs.Tests.{each};
ghost use Rattle.arena.specs.Layout.{count, decode as nodes};
ghost use Rattle.arena.specs.Calls.{in_cells};
ghost use Rattle.arena.specs.Inner.{Holds, Known};
ghost use Rattle.classes.specs.Layout.{decode};
ghost use Rattle.classes.specs.Inner.{Held};
ghost use Rattle.normal.specs.Calls.{normal_forms};
ghost use Rattle.sort_keys.specs.Keys.{exprs_of};
ghost use Rattle.sort_keys.specs.Layout.{keys_of, sorted, options_known};
ghost use Rattle.sort_keys.specs.Calls.{sorted_by};
ghost use Rattle.sort_keys.specs.Inner.{KeysKnown, ReadyKeys, SortedAll, uniform_by, pushed, kept_key};

use crate::Sorted;
use arena::Refusal;
use arena::cells::{cell_of, node_count, wide};
use classes::Group;
use normal::normalizing::normalize;
use normal::table::class_firsts;
use questions::questions::class_marks;

// No keys.
#[tactic(auto, unfolding(crate::specs::Layout::sorted, classes::specs::Layout::padded))]
pub fn no_keys() -> Sorted
    ensures { result ≡ sorted [] }
{
    Sorted {
        size: 0,
        keys: [0u16; 16],
    }
}

// The options of the keys are 0 to 3.
pub fn options_known(keys: &[u32]) -> bool
    ensures { result ≡ options_known keys.now }
{
    (0..keys.len() / 2).all(|k| keys[2 * k + 1] <= 3)
}

// The expressions of the keys are below n.
pub fn exprs_below(keys: &[u32], n: usize) -> bool
    ensures { result ≡ each (λ k. ltb (get_or keys.now (2 * k) 0) n) (length keys.now / 2) }
{
    (0..keys.len() / 2).all(|k| wide(keys[2 * k]) < n)
}

// An expression is a uniform constant: a literal, or one of the old nodes whose class has a uniform constant.
fn is_uniform_constant(cells: &[u32; 11265], marks: &[u32; 1024], old: usize, e: u32) -> bool
    requires { Known cells.now e × (old ≤ 1024) }
    ensures { result ≡ uniform_by (nodes cells.now) old marks.now e }
{
    let i = wide(e);
    cell_of(cells, i, 0) == 2 || i < old && 2 <= marks[i]
}

// The keys with one more at their end; a seventeenth is not written.
fn push(out: Sorted, e: u32, options: u32) -> Sorted
    requires { (e < 1024) × (options ≤ 3) }
    ensures { result ≡ pushed out e options }
{
    if 16 <= out.size {
        return out;
    }
    let at = out.size;
    let mut more = out;
    more.keys[at] = (e * 4 + options) as u16;
    more.size = at + 1;
    more
}

// The keys with one more, if it is not a uniform constant.
fn keep(
    cells: &[u32; 11265],
    marks: &[u32; 1024],
    old: usize,
    out: Sorted,
    e: u32,
    options: u32,
) -> Sorted
    requires { (Known cells.now e × (old ≤ 1024)) × (options ≤ 3) }
    ensures { result ≡ kept_key (nodes cells.now) old marks.now out e options }
{
    if is_uniform_constant(cells, marks, old, e) {
        return out;
    }
    push(out, e, options)
}

// Rewrites the expressions of the keys, one after the other, and keeps those that are no uniform constant.
fn sort_all(
    cells: &mut [u32; 11265],
    firsts: &[u32; 1024],
    marks: &[u32; 1024],
    memo: &mut [u32; 1024],
    keys: &[u32],
    old: usize,
) -> Result<Sorted, Refusal>
    requires { ReadyKeys old firsts.now cells.old memo.old keys.now }
    ensures { SortedAll old firsts.now marks.now cells.old cells.new keys.now result }
{
    let mut out = no_keys();
    for k in 0..keys.len() / 2 {
        let e = normalize(cells, firsts, memo, keys[2 * k], old)?;
        out = keep(cells, marks, old, out, e, keys[2 * k + 1]);
    }
    Ok(out)
}

// The normal forms of sort keys: 3 where their missing nodes don't fit, 5 where more than 16 keys were given, and then
// every cell is as it was.
pub fn sort_in(cells: &mut [u32; 11265], g: Group, keys: &[u32]) -> Result<Sorted, Refusal>
    requires { (Holds cells.old × KeysKnown (count cells.old) keys.now) × Held (nodes cells.old) g }
    ensures { (result, cells.new) ≡ in_cells (sorted_by (keys_of keys.now) (nodes cells.old) (decode g) (normal_forms (nodes cells.old) (decode g) (exprs_of (keys_of keys.now)))) }
{
    let old = node_count(cells);
    let firsts = class_firsts(g, old);
    let marks = class_marks(g, old);
    let saved = *cells;
    let mut memo = [0u32; 1024];
    let Ok(out) = sort_all(cells, &firsts, &marks, &mut memo, keys, old) else {
        *cells = saved;
        return Err(Refusal::ArenaFull);
    };
    if 16 < keys.len() / 2 {
        *cells = saved;
        return Err(Refusal::TooLarge);
    }
    Ok(out)
}
