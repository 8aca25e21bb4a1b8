// The walk from a key (`construct_orderings`): turn by turn, each pair of target and dependency expanded once.
ghost use Rattle.std.specs.Prelude.{[], ◌∷◌, ◌≡◌, ◌≤◌, ◌<◌, ◌+◌, None};
ghost use Rattle.orderings.specs.Inner.{extended_of};
ghost use Rattle.enumeration.specs.Inner.{Walking, Room, up_all, frames_of, left, deeper, turned, Visited, Entered, Went, kept, Walked};

use crate::marking::{mark, next_open};
use crate::{Constructed, DependencyEnumerator, Found, Frame};
use arena::Refusal;
use dependencies::DependencyMap;
use dependencies::inserting::find_key;
use orderings::Ordering;
use orderings::making::nothing;
use orderings::pushing::push;

// The ordering that a target at the end of the way down begins: it, and the targets on the way up.
fn way_up(m: DependencyMap, walk: DependencyEnumerator, target: u16) -> Result<Ordering, Refusal>
    requires { Walking m walk }
    ensures { result ≡ extended_of (up_all (frames_of m walk walk.depth) (target ∷ [])) }
{
    let mut out = push(nothing(), target)?;
    for i in (0..walk.depth).rev() {
        let frame = walk.frames[i];
        let place = frame.place;
        let node = m.list[place];
        out = push(out, node.target)?;
    }
    Ok(out)
}

// The walk goes one key down.
fn go_down(walk: &mut DependencyEnumerator, place: usize)
    requires { walk.old.depth < 1025 }
    ensures { walk.new ≡ deeper walk.old place }
{
    let at = walk.depth;
    walk.frames[at] = Frame { place, next: 0 };
    walk.depth = at + 1;
}

// The walk comes to a place of the map: 7 where it has no target, an ordering where it depends on nothing.
fn visit(
    m: DependencyMap,
    walk: &mut DependencyEnumerator,
    place: usize,
) -> Result<Option<Result<Ordering, Refusal>>, Refusal>
    requires { (Walking m walk.old × (walk.old.depth + left walk.old ≤ 1024)) × (place < m.count) }
    ensures { Visited m walk.old place (turned walk.new result) }
{
    let node = m.list[place];
    if !node.projected {
        return Err(Refusal::NoTarget);
    }
    if node.size == 0 {
        return Ok(Some(way_up(m, *walk, node.target)));
    }
    go_down(walk, place);
    Ok(None)
}

// The walk comes to a key: 6 where it is not in the map.
fn enter(
    m: DependencyMap,
    walk: &mut DependencyEnumerator,
    key: u16,
) -> Result<Option<Result<Ordering, Refusal>>, Refusal>
    requires { Walking m walk.old × (walk.old.depth + left walk.old ≤ 1024) }
    ensures { Entered m walk.old key (turned walk.new result) }
{
    match find_key(m, key) {
        Some(i) => visit(m, walk, i),
        None => Err(Refusal::UnknownKey),
    }
}

// One turn of the walk: the next pair of the lowest key is expanded, or the walk leaves this key.
fn turn(
    m: DependencyMap,
    walk: &mut DependencyEnumerator,
) -> Result<Option<Result<Ordering, Refusal>>, Refusal>
    requires { Walking m walk.old × (0 < walk.old.depth) }
    ensures { Went m walk.old (turned walk.new result) }
{
    let at = walk.depth - 1;
    let top = walk.frames[at];
    let place = top.place;
    let node = m.list[place];
    let k = next_open(walk.seen[place], top.next, node.size);
    if node.size <= k {
        walk.depth = at;
        return Ok(None);
    }
    let key = node.dependencies[k];
    *walk = mark(m, *walk, node.target, key);
    walk.frames[at] = Frame { place, next: k + 1 };
    enter(m, walk, key)
}

// The orderings with the one that a turn found, if it found one.
#[tactic(auto, unfolding(crate::specs::Inner::kept))]
fn keep(found: Found, leaf: Option<Result<Ordering, Refusal>>) -> Found
    requires { found.count ≤ 1024 }
    ensures { result ≡ kept found leaf }
{
    let Some(one) = leaf else {
        return found;
    };
    let n = found.count;
    let mut more = found;
    match one {
        Ok(ordering) => {
            if n < 1024 {
                more.rows[n] = ordering;
                more.count = n + 1;
            } else {
                more.over = true;
            }
        }
        Err(_) => {
            more.over = true;
        }
    }
    more
}

// The orderings that lead to a key, behind those that were found before it. Refusals: 6, 7.
pub fn construct_orderings(
    m: DependencyMap,
    walk: DependencyEnumerator,
    found: Found,
    key: u16,
) -> Result<Constructed, Refusal>
    requires { (Walking m walk × (walk.depth ≡ 0)) × Room found }
    ensures { Walked m walk found key result }
{
    let mut way = walk;
    let leaf = enter(m, &mut way, key)?;
    let mut rows = keep(found, leaf);
    // No count drives this loop: a turn makes the way down longer or shorter.
    while 0 < way.depth {
        let next = turn(m, &mut way)?;
        rows = keep(rows, next);
    }
    Ok(Constructed {
        walk: way,
        found: rows,
    })
}
