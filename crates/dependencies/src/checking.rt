// The check of a lent map: document 01's rule 11, then 1. And the check of an insert: 12 before them.
ghost use Rattle.std.specs.Prelude.{Bool, true, not, ◌&&◌, ◌||◌, ◌≡◌, ℕ, ◌≤◌, ◌<◌, ◌+◌, ◌-◌, eqb, ltb, get_or};
ghost use Rattle.laws.specs.Tests.{each};
ghost use Rattle.classes.specs.Layout.{fresh};
ghost use Rattle.orderings.specs.Ordering.{expr_of};
ghost use Rattle.dependencies.specs.Layout.{place_in, rest_unused, lawful_entry, unused_entry, fresh_key, lawful_map, entry_inside, keys_inside};
ghost use Rattle.dependencies.specs.Calls.{map_number, insert_number};
ghost use Rattle.arena.specs.Refusals.{outcome};

use crate::inserting::{given_below, options_known};
use crate::{DependencyMap, DependencyNode, Key};
use arena::Refusal;
use arena::cells::{node_count, wide};
use arena::checking::lawful_arena;
use orderings::checking::expr_of;

// Dependency k does not stand before its place.
fn dependency_fresh(r: DependencyNode, k: usize) -> bool
    requires { k < 16 }
    ensures { result ≡ fresh r.dependencies k }
{
    (0..k).all(|i| r.dependencies[i] != r.dependencies[k])
}

// No dependency stands twice.
fn dependencies_fresh(r: DependencyNode) -> bool
    requires { r.size ≤ 16 }
    ensures { result ≡ each (λ k. fresh r.dependencies k) r.size }
{
    (0..r.size).all(|k| dependency_fresh(r, k))
}

// The places for dependencies after those that are used are 0.
fn rest_unused(r: DependencyNode) -> bool
    requires { r.size ≤ 16 }
    ensures { result ≡ rest_unused r }
{
    (0..16 - r.size).all(|k| r.dependencies[r.size + k] == 0)
}

// A target number stands only where there is a target.
fn target_told(r: DependencyNode) -> bool
    ensures { result ≡ (r.projected || eqb r.target 0) }
{
    r.projected || r.target == 0
}

// An entry: at most 16 dependencies, none twice, a target number only where there is a target, unused places 0.
#[tactic(auto, unfolding(crate::specs::Layout::lawful_entry))]
fn lawful_entry(r: DependencyNode) -> bool
    ensures { result ≡ lawful_entry r }
{
    r.size <= 16 && dependencies_fresh(r) && target_told(r) && rest_unused(r)
}

// An unused place: everything 0.
#[tactic(auto, unfolding(crate::specs::Layout::unused_entry))]
fn unused_entry(r: DependencyNode) -> bool
    ensures { result ≡ unused_entry r }
{
    r.key == 0 && !r.projected && r.target == 0 && r.size == 0 && rest_unused(r)
}

// Each entry is lawful.
fn entries_lawful(m: DependencyMap) -> bool
    requires { m.count ≤ 64 }
    ensures { result ≡ each (λ i. lawful_entry (place_in m i)) m.count }
{
    (0..m.count).all(|i| lawful_entry(m.list[i]))
}

// The key at a place does not stand before it.
fn key_fresh(m: DependencyMap, k: usize) -> bool
    requires { k < 64 }
    ensures { result ≡ fresh_key m k }
{
    (0..k).all(|i| m.list[i].key != m.list[k].key)
}

// No key stands twice.
fn keys_fresh(m: DependencyMap) -> bool
    requires { m.count ≤ 64 }
    ensures { result ≡ each (λ i. fresh_key m i) m.count }
{
    (0..m.count).all(|i| key_fresh(m, i))
}

// Each of the other places is unused.
fn places_unused(m: DependencyMap) -> bool
    requires { m.count ≤ 64 }
    ensures { result ≡ each (λ i. unused_entry (place_in m (m.count + i))) (64 - m.count) }
{
    (0..64 - m.count).all(|i| unused_entry(m.list[m.count + i]))
}

// The struct is a map.
#[tactic(auto, unfolding(crate::specs::Layout::lawful_map))]
pub fn lawful_map(m: DependencyMap) -> bool
    ensures { result ≡ lawful_map m }
{
    m.count <= 64 && entries_lawful(m) && keys_fresh(m) && places_unused(m)
}

// The expressions of an entry's dependencies are below n.
fn dependencies_below(r: DependencyNode, n: usize) -> bool
    requires { r.size ≤ 16 }
    ensures { result ≡ each (λ k. ltb (expr_of (get_or r.dependencies k 0)) n) r.size }
{
    (0..r.size).all(|k| expr_of(r.dependencies[k]) < n)
}

// The expressions of an entry's key, target and dependencies are below n.
#[tactic(auto, unfolding(crate::specs::Layout::entry_inside))]
fn entry_below(r: DependencyNode, n: usize) -> bool
    requires { r.size ≤ 16 }
    ensures { result ≡ entry_inside n r }
{
    expr_of(r.key) < n && expr_of(r.target) < n && dependencies_below(r, n)
}

// The expressions of all entries are below n.
fn keys_below(m: DependencyMap, n: usize) -> bool
    requires { lawful_map m ≡ true }
    ensures { result ≡ keys_inside n m }
{
    (0..m.count).all(|i| entry_below(m.list[i], n))
}

// The check of a lent map over a lent arena.
#[tactic(auto, unfolding(crate::specs::Calls::map_number, arena::specs::Refusals::outcome, arena::specs::Refusals::refusal))]
pub fn check_map(cells: &[u32; 11265], m: DependencyMap) -> Result<(), Refusal>
    ensures { result ≡ outcome (map_number cells.now m) }
{
    if !(lawful_arena(cells) && lawful_map(m)) {
        return Err(Refusal::BadState);
    }
    if !keys_below(m, node_count(cells)) {
        return Err(Refusal::UnknownExpression);
    }
    Ok(())
}

// The check of what an insert is lent and given.
#[tactic(auto, unfolding(crate::specs::Calls::insert_number, arena::specs::Refusals::outcome, arena::specs::Refusals::refusal))]
pub fn check_insert(
    cells: &[u32; 11265],
    m: DependencyMap,
    expr: u32,
    options: u32,
    target: Option<Key>,
    dependency: Option<Key>,
) -> Result<(), Refusal>
    ensures { result ≡ outcome (insert_number cells.now m expr options target dependency) }
{
    if !(options <= 3 && options_known(target) && options_known(dependency)) {
        return Err(Refusal::BadNumber);
    }
    check_map(cells, m)?;
    let n = node_count(cells);
    if !(wide(expr) < n && given_below(target, n) && given_below(dependency, n)) {
        return Err(Refusal::UnknownExpression);
    }
    Ok(())
}
