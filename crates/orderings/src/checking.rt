// The check of a lent list: document 01's rule 11, then 1.
ghost use Rattle.std.specs.Prelude.{◌&&◌, ◌≡◌, ◌≤◌, ◌<◌, ◌+◌, ◌-◌, ltb, get_or};
ghost use Rattle.laws.specs.Tests.{each};
ghost use Rattle.arena.specs.Refusals.{outcome};
ghost use Rattle.orderings.specs.Ordering.{expr_of};
ghost use Rattle.orderings.specs.Layout.{place_in, fresh_key, rest_unused, lawful_ordering, unused_ordering, lawful_list, keys_inside};
ghost use Rattle.orderings.specs.Calls.{list_number, two_number};
ghost use Rattle.orderings.specs.Inner.{Lawful};

use crate::{Ordering, Orderings};
use arena::Refusal;
use arena::cells::node_count;
use arena::checking::lawful_arena;

// The expression of key k does not stand before it.
fn fresh_key(o: Ordering, k: usize) -> bool
    requires { k < 16 }
    ensures { result ≡ fresh_key o.keys k }
{
    (0..k).all(|i| expr_of(o.keys[i]) != expr_of(o.keys[k]))
}

// No expression stands twice.
fn keys_fresh(o: Ordering) -> bool
    requires { o.size ≤ 16 }
    ensures { result ≡ each (λ k. fresh_key o.keys k) o.size }
{
    (0..o.size).all(|k| fresh_key(o, k))
}

// The places for keys after those that are used are 0.
fn rest_unused(o: Ordering) -> bool
    requires { o.size ≤ 16 }
    ensures { result ≡ rest_unused o }
{
    (0..16 - o.size).all(|k| o.keys[o.size + k] == 0)
}

// An ordering: 1 to 16 keys, no expression twice, unused places 0.
#[tactic(auto, unfolding(crate::specs::Layout::lawful_ordering))]
fn lawful_ordering(o: Ordering) -> bool
    ensures { result ≡ lawful_ordering o }
{
    0 < o.size && o.size <= 16 && keys_fresh(o) && rest_unused(o)
}

// An unused place.
#[tactic(auto, unfolding(crate::specs::Layout::unused_ordering))]
fn unused_ordering(o: Ordering) -> bool
    ensures { result ≡ unused_ordering o }
{
    o.size == 0 && rest_unused(o)
}

// Each of the orderings is lawful.
fn orderings_lawful(g: Orderings) -> bool
    requires { g.count ≤ 32 }
    ensures { result ≡ each (λ i. lawful_ordering (place_in g i)) g.count }
{
    (0..g.count).all(|i| lawful_ordering(g.list[i]))
}

// Each of the other places is unused.
fn places_unused(g: Orderings) -> bool
    requires { g.count ≤ 32 }
    ensures { result ≡ each (λ i. unused_ordering (place_in g (g.count + i))) (32 - g.count) }
{
    (0..32 - g.count).all(|i| unused_ordering(g.list[g.count + i]))
}

// The struct is a list of orderings.
#[tactic(auto, unfolding(crate::specs::Layout::lawful_list))]
pub fn lawful_list(g: Orderings) -> bool
    ensures { result ≡ lawful_list g }
{
    g.count <= 32 && orderings_lawful(g) && places_unused(g)
}

// The expression of a key, as an index.
#[tactic(auto, unfolding(crate::specs::Ordering::expr_of))]
pub fn expr_of(key: u16) -> usize
    ensures { result ≡ expr_of key }
{
    usize::from(key / 4)
}

// The expressions of an ordering's keys are below n.
fn exprs_below(o: Ordering, n: usize) -> bool
    requires { o.size ≤ 16 }
    ensures { result ≡ each (λ k. ltb (expr_of (get_or o.keys k 0)) n) o.size }
{
    (0..o.size).all(|k| expr_of(o.keys[k]) < n)
}

// The expressions of all keys are below n.
pub fn keys_below(g: Orderings, n: usize) -> bool
    requires { Lawful g }
    ensures { result ≡ keys_inside n g }
{
    (0..g.count).all(|i| exprs_below(g.list[i], n))
}

// The check of a lent list over a lent arena.
#[tactic(auto, unfolding(crate::specs::Calls::list_number, arena::specs::Refusals::outcome, arena::specs::Refusals::refusal))]
pub fn check_list(cells: &[u32; 11265], g: Orderings) -> Result<(), Refusal>
    ensures { result ≡ outcome (list_number cells.now g) }
{
    if !(lawful_arena(cells) && lawful_list(g)) {
        return Err(Refusal::BadState);
    }
    let n = node_count(cells);
    if !keys_below(g, n) {
        return Err(Refusal::UnknownExpression);
    }
    Ok(())
}

// The check of two lent lists over a lent arena.
#[tactic(auto, unfolding(crate::specs::Calls::two_number, arena::specs::Refusals::outcome, arena::specs::Refusals::refusal))]
pub fn check_two(cells: &[u32; 11265], g: Orderings, h: Orderings) -> Result<(), Refusal>
    ensures { result ≡ outcome (two_number cells.now g h) }
{
    if !(lawful_arena(cells) && lawful_list(g) && lawful_list(h)) {
        return Err(Refusal::BadState);
    }
    let n = node_count(cells);
    if !(keys_below(g, n) && keys_below(h, n)) {
        return Err(Refusal::UnknownExpression);
    }
    Ok(())
}
