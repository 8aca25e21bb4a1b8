// Reduction (`remove_redundant_entries`), over a list that is checked already.
ghost use Rattle.std.specs.Prelude.{◌≡◌, ◌≤◌, ◌<◌, ◌+◌, ◌-◌, eqb, length, set, take, if◌then◌else◌};
ghost use Rattle.orderings.specs.Ordering.{same_key};
ghost use Rattle.reduction.specs.Reduction.{meets as meets_by, overlap as overlap_by, removed as removed_at, resolve, second as second_by, compared, round as round_by, pass as pass_by, reduced as reduced_by};
ghost use Rattle.orderings.specs.Lists.{ordering_at};
ghost use Rattle.orderings.specs.Layout.{row, keys_of, encode, decode};
ghost use Rattle.orderings.specs.Inner.{HeldOrdering, Held};
ghost use Rattle.reduction.specs.Inner.{Paid, overlap_number, contest_of, turn_of, reduction_of};

use crate::{Contest, Reduction, Turned};
use orderings::making::nothing;
use orderings::{Ordering, Orderings};

// The last n keys of a are the first n keys of b.
fn meets(a: Ordering, b: Ordering, n: usize) -> bool
    requires { (HeldOrdering a × HeldOrdering b) × ((n ≤ a.size) × (n ≤ b.size)) }
    ensures { result ≡ meets_by same_key (keys_of a) (keys_of b) n }
{
    let start = a.size - n;
    (0..n).all(|k| a.keys[start + k] == b.keys[k])
}

// The least number of keys that end a and begin b; 0 where there is none.
fn overlap(a: Ordering, b: Ordering) -> usize
    requires { HeldOrdering a × HeldOrdering b }
    ensures { result ≡ overlap_number (overlap_by same_key (keys_of a) (keys_of b)) }
{
    let most = a.size.min(b.size);
    (0..most).find(|n| meets(a, b, *n + 1)).map_or(0, |n| n + 1)
}

// The first n keys of an ordering.
#[tactic(auto, using(orderings::proofs::Codec::size_few))]
fn truncate(o: Ordering, n: usize) -> Ordering
    requires { HeldOrdering o × (n ≤ o.size) }
    ensures { result ≡ row (take n (keys_of o)) }
{
    let mut keys = [0u16; 16];
    keys[..n].copy_from_slice(&o.keys[..n]);
    Ordering { size: n, keys }
}

// The list without ordering i: the last moves into its gap.
fn remove(g: Orderings, i: usize) -> Orderings
    requires { Held g × (i < g.count) }
    ensures { result ≡ encode (removed_at (decode g) i) }
{
    let last = g.count - 1;
    let mut out = g;
    out.list[i] = g.list[last];
    out.list[last] = nothing();
    out.count = last;
    out
}

// The list with the end of ordering i cut off, so that n keys stay.
fn cut(g: Orderings, i: usize, n: usize) -> Orderings
    requires { Held g × ((i < g.count) × (n ≤ length (ordering_at (decode g) i))) }
    ensures { result ≡ encode (set (decode g) i (take n (ordering_at (decode g) i))) }
{
    let o = g.list[i];
    let mut out = g;
    out.list[i] = truncate(o, n);
    out
}

// Ordering j is held against ordering i, after c cuts.
fn second(g: Orderings, i: usize, j: usize, c: usize) -> Contest
    requires { (Held g × (c ≤ 1)) × ((i < g.count) × (j < g.count)) }
    ensures { result ≡ contest_of (second_by (decode g) j c (resolve same_key (decode g) j i)) }
{
    let a = g.list[i];
    let b = g.list[j];
    let n = overlap(b, a);
    if n == 0 {
        return Contest {
            way: 0,
            cuts: c,
            list: g,
        };
    }
    if n == b.size {
        return Contest {
            way: 1,
            cuts: c + 1,
            list: remove(g, j),
        };
    }
    Contest {
        way: 0,
        cuts: c + 1,
        list: cut(g, j, b.size - n),
    }
}

// Ordering i is held against ordering j, and then j against i.
fn contest(g: Orderings, i: usize, j: usize) -> Contest
    requires { Held g × ((i < g.count) × (j < g.count)) }
    ensures { result ≡ contest_of (compared same_key (decode g) i j) }
{
    let a = g.list[i];
    let b = g.list[j];
    let n = overlap(a, b);
    if n == 0 {
        return second(g, i, j, 0);
    }
    if n == a.size {
        return Contest {
            way: 2,
            cuts: 1,
            list: remove(g, i),
        };
    }
    let shorter = cut(g, i, a.size - n);
    second(shorter, i, j, 1)
}

// The place that is compared next: the same one where it was replaced.
fn next_place(way: u32, j: usize) -> usize
    requires { j < 32 }
    ensures { result ≡ (if eqb way 0 then j + 1 else j) }
{
    if way == 0 { j + 1 } else { j }
}

// Ordering i against all after it, after some cuts.
fn round(g: Orderings, i: usize, cuts: usize) -> Turned
    requires { Paid g cuts × (i < g.count) }
    ensures { result ≡ turn_of (round_by same_key (decode g) i cuts) }
{
    let mut list = g;
    let mut done = cuts;
    let mut j = i + 1;
    // A comparing decides the next place and how many are left; no count drives the loop.
    while j < list.count {
        let c = contest(list, i, j);
        list = c.list;
        done += c.cuts;
        if c.way == 2 {
            return Turned {
                next: i,
                cuts: done,
                list,
            };
        }
        j = next_place(c.way, j);
    }
    Turned {
        next: i + 1,
        cuts: done,
        list,
    }
}

// One pass over all orderings.
fn pass(g: Orderings) -> Turned
    requires { Held g }
    ensures { result ≡ turn_of (pass_by same_key (decode g)) }
{
    let mut list = g;
    let mut cuts = 0;
    let mut i = 0;
    // A round decides the next place and how many are left; no count drives the loop.
    while i < list.count {
        let turn = round(list, i, cuts);
        list = turn.list;
        cuts = turn.cuts;
        i = turn.next;
    }
    Turned {
        next: i,
        cuts,
        list,
    }
}

// Reduces a list: passes until one cuts nothing.
pub fn remove_redundant_entries(g: Orderings) -> Reduction
    requires { Held g }
    ensures { result ≡ reduction_of (reduced_by same_key (decode g)) }
{
    let mut list = g;
    let mut cuts = 0;
    let mut passes = 0;
    let mut work = true;
    // A pass that cuts nothing ends it; no count drives the loop.
    while work {
        let turn = pass(list);
        list = turn.list;
        cuts += turn.cuts;
        passes += 1;
        work = turn.cuts != 0;
    }
    Reduction { list, cuts, passes }
}
