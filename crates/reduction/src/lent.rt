// Lists of keys that are lent as numbers: for each its key count, then expression and options of each key.
ghost use Rattle.std.specs.Prelude.{◌&&◌, ◌++◌, ◌≡◌, ◌<◌, ◌+◌, ◌*◌, ltb, leb, length, get_or};
ghost use Rattle.laws.specs.Tests.{each};
ghost use Rattle.orderings.specs.Ordering.{built};
ghost use Rattle.orderings.specs.Lists.{built_all};
ghost use Rattle.reduction.specs.Lent.{key_count, expr_lent, options_lent, options_known, whole, exprs_inside, keys_lent, lists_lent, fresh_lent, orderings_lent};
ghost use Rattle.orderings.specs.Layout.{decode};
ghost use Rattle.reduction.specs.Calls.{lent_number, extend_number, reduced_list};
ghost use Rattle.arena.specs.Refusals.{outcome};
ghost use Rattle.orderings.specs.Inner.{Held, Short, extended_of, made};
ghost use Rattle.reduction.specs.Inner.{KeysFit, LentFit, parts_lent, checked_number, added_one};

use crate::reducing::remove_redundant_entries;
use arena::Refusal;
use arena::cells::node_count;
use arena::checking::lawful_arena;
use orderings::checking::{keys_below, lawful_list};
use orderings::making::{append, nothing, refusal};
use orderings::pushing::push;
use orderings::{Listed, Ordering, Orderings};

// A number, as an index.
fn index(x: u16) -> usize
    ensures { (result ≡ x) × (result < 65536) }
{
    usize::from(x)
}

// The number at a place; past the end, 0.
fn number_at(numbers: &[u16], i: usize) -> usize
    ensures { (result ≡ get_or numbers.now i 0) × (result < 65536) }
{
    if i < numbers.len() {
        index(numbers[i])
    } else {
        0
    }
}

// The options of the keys of the list at a place are 0 to 3.
fn options_at(numbers: &[u16], at: usize) -> bool
    requires { at < length numbers.now }
    ensures { result ≡ each (λ k. leb (options_lent numbers.now at k) 3) (key_count numbers.now at) }
{
    (0..number_at(numbers, at)).all(|k| number_at(numbers, at + 2 + 2 * k) <= 3)
}

// The options of all keys are 0 to 3.
fn options_known(numbers: &[u16]) -> bool
    ensures { result ≡ options_known numbers.now }
{
    let n = numbers.len();
    let mut at = 0;
    // A step decides the next place, a list's length; no count drives the walk.
    while at < n {
        if !options_at(numbers, at) {
            return false;
        }
        at += 1 + 2 * number_at(numbers, at);
    }
    true
}

// No count runs past what is lent.
fn is_whole(numbers: &[u16]) -> bool
    ensures { result ≡ whole numbers.now }
{
    let n = numbers.len();
    let mut at = 0;
    // A step decides the next place, a list's length; no count drives the walk.
    while at < n {
        at += 1 + 2 * number_at(numbers, at);
        if n < at {
            return false;
        }
    }
    true
}

// The expressions of the keys of the list at a place are below n.
fn exprs_at(numbers: &[u16], at: usize, n: usize) -> bool
    requires { at < length numbers.now }
    ensures { result ≡ each (λ k. ltb (expr_lent numbers.now at k) n) (key_count numbers.now at) }
{
    (0..number_at(numbers, at)).all(|k| number_at(numbers, at + 1 + 2 * k) < n)
}

// The expressions of all keys are below n.
fn exprs_inside(numbers: &[u16], n: usize) -> bool
    ensures { result ≡ exprs_inside n numbers.now }
{
    let m = numbers.len();
    let mut at = 0;
    // A step decides the next place, a list's length; no count drives the walk.
    while at < m {
        if !exprs_at(numbers, at, n) {
            return false;
        }
        at += 1 + 2 * number_at(numbers, at);
    }
    true
}

// The expression of key k of the list at a place does not stand before it.
fn fresh_lent(numbers: &[u16], at: usize, k: usize) -> bool
    requires { (at < length numbers.now) × (k < 65536) }
    ensures { result ≡ fresh_lent numbers.now at k }
{
    let e = number_at(numbers, at + 1 + 2 * k);
    (0..k).all(|i| number_at(numbers, at + 1 + 2 * i) != e)
}

// The list at a place repeats no expression.
fn none_twice(numbers: &[u16], at: usize) -> bool
    requires { at < length numbers.now }
    ensures { result ≡ each (λ k. fresh_lent numbers.now at k) (key_count numbers.now at) }
{
    (0..number_at(numbers, at)).all(|k| fresh_lent(numbers, at, k))
}

// The list at a place is an ordering: it has keys, and no expression twice.
fn ordering_at(numbers: &[u16], at: usize) -> bool
    requires { at < length numbers.now }
    ensures { result ≡ (ltb 0 (key_count numbers.now at) && each (λ k. fresh_lent numbers.now at k) (key_count numbers.now at)) }
{
    0 < number_at(numbers, at) && none_twice(numbers, at)
}

// Each list is an ordering.
fn orderings_lent(numbers: &[u16]) -> bool
    ensures { result ≡ orderings_lent numbers.now }
{
    let n = numbers.len();
    let mut at = 0;
    // A step decides the next place, a list's length; no count drives the walk.
    while at < n {
        if !ordering_at(numbers, at) {
            return false;
        }
        at += 1 + 2 * number_at(numbers, at);
    }
    true
}

// No count runs past what is lent, and each list is an ordering where that is asked.
#[tactic(auto, unfolding(crate::specs::Inner::parts_lent))]
fn parts_lent(numbers: &[u16], orderings: bool) -> bool
    ensures { result ≡ parts_lent orderings numbers.now }
{
    if orderings {
        is_whole(numbers) && orderings_lent(numbers)
    } else {
        is_whole(numbers)
    }
}

// The check of a list and of what is lent with it, lists of keys or orderings. The orderings are looked at last of all that
// is answered with 11, since that takes the square of their keys.
#[tactic(auto, unfolding(crate::specs::Inner::checked_number, arena::specs::Refusals::outcome, arena::specs::Refusals::refusal))]
fn check_lent(
    cells: &[u32; 11265],
    g: Orderings,
    numbers: &[u16],
    orderings: bool,
) -> Result<(), Refusal>
    ensures { result ≡ outcome (checked_number cells.now g (parts_lent orderings numbers.now) numbers.now) }
{
    if !options_known(numbers) {
        return Err(Refusal::BadNumber);
    }
    if !(lawful_arena(cells) && lawful_list(g) && parts_lent(numbers, orderings)) {
        return Err(Refusal::BadState);
    }
    let n = node_count(cells);
    if !(keys_below(g, n) && exprs_inside(numbers, n)) {
        return Err(Refusal::UnknownExpression);
    }
    Ok(())
}

// The check of a list and of lists of keys that are lent with it.
#[tactic(auto, unfolding(crate::specs::Inner::checked_number, crate::specs::Inner::parts_lent, crate::specs::Calls::lent_number))]
pub fn lent_number(cells: &[u32; 11265], g: Orderings, numbers: &[u16]) -> Result<(), Refusal>
    ensures { result ≡ outcome (lent_number cells.now g numbers.now) }
{
    check_lent(cells, g, numbers, false)
}

// The check of a list and of orderings that are lent with it.
#[tactic(auto, unfolding(crate::specs::Inner::checked_number, crate::specs::Inner::parts_lent, crate::specs::Calls::extend_number))]
pub fn extend_number(cells: &[u32; 11265], g: Orderings, numbers: &[u16]) -> Result<(), Refusal>
    ensures { result ≡ outcome (extend_number cells.now g numbers.now) }
{
    check_lent(cells, g, numbers, true)
}

// The ordering that is built from the list at a place; too large where it has more than 16 keys.
fn build(numbers: &[u16], at: usize) -> Result<Ordering, Refusal>
    requires { KeysFit numbers.now at }
    ensures { result ≡ extended_of (built (keys_lent numbers.now at)) }
{
    let mut out = nothing();
    for k in 0..number_at(numbers, at) {
        let key = number_at(numbers, at + 1 + 2 * k) * 4 + number_at(numbers, at + 2 + 2 * k);
        out = push(out, key as u16)?;
    }
    Ok(out)
}

// A list with an ordering at its end, if that is not empty; too large where it doesn't fit.
#[tactic(auto, unfolding(crate::specs::Inner::added_one))]
fn add_one(g: Orderings, one: Ordering) -> Result<Orderings, Refusal>
    requires { Short g }
    ensures { result ≡ added_one g one }
{
    if one.size == 0 {
        return Ok(g);
    }
    if 32 <= g.count {
        return Err(Refusal::TooLarge);
    }
    Ok(append(g, one))
}

// A list with all orderings that are built from the lists of keys at its end; too large where they don't fit.
fn add_all(g: Orderings, numbers: &[u16]) -> Result<Orderings, Refusal>
    requires { Held g × LentFit numbers.now }
    ensures { result ≡ made (decode g ++ built_all (lists_lent numbers.now)) }
{
    let n = numbers.len();
    let mut list = g;
    let mut at = 0;
    // A step decides the next place, a list's length; no count drives the walk.
    while at < n {
        let one = build(numbers, at)?;
        list = add_one(list, one)?;
        at += 1 + 2 * number_at(numbers, at);
    }
    Ok(list)
}

// Adds orderings that are built from lists of keys, and reduces.
pub fn add_in(g: Orderings, numbers: &[u16]) -> Listed
    requires { Held g × LentFit numbers.now }
    ensures { result ≡ reduced_list g (decode g ++ built_all (lists_lent numbers.now)) }
{
    match add_all(g, numbers) {
        Ok(all) => Listed {
            done: Ok(()),
            list: remove_redundant_entries(all).list,
        },
        Err(why) => refusal(why, g),
    }
}
