// Inserting into a map that is checked already.
ghost use Rattle.std.specs.Prelude.{true, [], ◌≡◌, ◌≤◌, ◌<◌, ◌+◌, ◌*◌, None, Some, Err};
ghost use Rattle.classes.specs.Group.{among};
ghost use Rattle.dependencies.specs.Map.{place_of, inserted_at, inserted};
ghost use Rattle.dependencies.specs.Layout.{row, entry_of, unused, decode};
ghost use Rattle.dependencies.specs.Calls.{options_known, given_below, key_of, judged};
ghost use Rattle.dependencies.specs.Inner.{Coded, Held, extended_by};

use crate::{DependencyMap, DependencyNode, Inserted, Key};
use arena::Refusal;
use arena::cells::wide;

// An unused place.
pub fn nothing() -> DependencyNode
    ensures { result ≡ unused }
{
    DependencyNode {
        key: 0,
        projected: false,
        target: 0,
        size: 0,
        dependencies: [0u16; 16],
    }
}

// A refusal, and the map as it was.
pub fn refusal(why: Refusal, map: DependencyMap) -> Inserted
    ensures { result ≡ record { done = Err why; map = map } }
{
    Inserted {
        done: Err(why),
        map,
    }
}

// A key that is given has options 0 to 3.
#[tactic(auto, unfolding(crate::specs::Calls::options_known))]
pub fn options_known(given: Option<Key>) -> bool
    ensures { result ≡ options_known given }
{
    match given {
        Some(key) => key.options <= 3,
        None => true,
    }
}

// A key that is given has an expression below n.
#[tactic(auto, unfolding(crate::specs::Calls::given_below))]
pub fn given_below(given: Option<Key>, n: usize) -> bool
    ensures { result ≡ given_below n given }
{
    match given {
        Some(key) => wide(key.expr) < n,
        None => true,
    }
}

// A key as one number.
pub fn packed(expr: u32, options: u32) -> u16
    requires { (expr < 1024) × (options ≤ 3) }
    ensures { result ≡ expr * 4 + options }
{
    (expr * 4 + options) as u16
}

// Where a key stands.
pub fn find_key(m: DependencyMap, key: u16) -> Option<usize>
    requires { m.count ≤ 64 }
    ensures { result ≡ place_of (decode m) key }
{
    (0..m.count).find(|i| m.list[*i].key == key)
}

// An entry has a dependency.
fn has_dependency(r: DependencyNode, key: u16) -> bool
    requires { r.size ≤ 16 }
    ensures { result ≡ among key (entry_of r).dependencies }
{
    r.dependencies[..r.size].contains(&key)
}

// An entry with a dependency, which is added once: too large where there are 16 others.
fn depend_on(r: DependencyNode, key: u16) -> Result<DependencyNode, Refusal>
    requires { Coded r }
    ensures { result ≡ extended_by r (Some key) }
{
    if has_dependency(r, key) {
        return Ok(r);
    }
    if 16 <= r.size {
        return Err(Refusal::TooLarge);
    }
    let at = r.size;
    let mut more = r;
    more.dependencies[at] = key;
    more.size = at + 1;
    Ok(more)
}

// An entry with the dependency that is given, if one is.
fn extend(r: DependencyNode, dependency: Option<Key>) -> Result<DependencyNode, Refusal>
    requires { Coded r × ((options_known dependency ≡ true) × (given_below 1024 dependency ≡ true)) }
    ensures { result ≡ extended_by r (key_of dependency) }
{
    match dependency {
        Some(key) => depend_on(r, packed(key.expr, key.options)),
        None => Ok(r),
    }
}

// A key with its target, if one is given, and no dependency yet.
fn fresh_entry(key: u16, target: Option<Key>) -> DependencyNode
    requires { (options_known target ≡ true) × (given_below 1024 target ≡ true) }
    ensures { result ≡ row (record { key = key; target = key_of target; dependencies = [] }) }
{
    let mut r = nothing();
    r.key = key;
    match target {
        Some(given) => {
            r.projected = true;
            r.target = packed(given.expr, given.options);
        }
        None => {}
    }
    r
}

// The map with another entry at a place, or 5 where the entry has no room for a dependency.
fn replace(m: DependencyMap, i: usize, dependency: Option<Key>) -> Inserted
    requires { (Held m × (i < m.count)) × ((options_known dependency ≡ true) × (given_below 1024 dependency ≡ true)) }
    ensures { result ≡ judged m (inserted_at (decode m) 0 None (key_of dependency) (Some i)) }
{
    match extend(m.list[i], dependency) {
        Ok(node) => {
            let mut next = m;
            next.list[i] = node;
            Inserted {
                done: Ok(()),
                map: next,
            }
        }
        Err(why) => refusal(why, m),
    }
}

// The map with a key at its end, or 5 where it has 64.
fn append(m: DependencyMap, key: u16, target: Option<Key>, dependency: Option<Key>) -> Inserted
    requires { Held m × (((options_known target ≡ true) × (given_below 1024 target ≡ true)) × ((options_known dependency ≡ true) × (given_below 1024 dependency ≡ true))) }
    ensures { result ≡ judged m (inserted_at (decode m) key (key_of target) (key_of dependency) None) }
{
    if 64 <= m.count {
        return refusal(Refusal::TooLarge, m);
    }
    match extend(fresh_entry(key, target), dependency) {
        Ok(node) => {
            let at = m.count;
            let mut next = m;
            next.list[at] = node;
            next.count = at + 1;
            Inserted {
                done: Ok(()),
                map: next,
            }
        }
        Err(why) => refusal(why, m),
    }
}

// Inserts a key with its target and a dependency, if there are such. Refusal: 5.
pub fn insert_in(
    m: DependencyMap,
    expr: u32,
    options: u32,
    target: Option<Key>,
    dependency: Option<Key>,
) -> Inserted
    requires { (Held m × ((expr < 1024) × (options ≤ 3))) × (((options_known target ≡ true) × (given_below 1024 target ≡ true)) × ((options_known dependency ≡ true) × (given_below 1024 dependency ≡ true))) }
    ensures { result ≡ judged m (inserted (decode m) (expr * 4 + options) (key_of target) (key_of dependency)) }
{
    let key = packed(expr, options);
    match find_key(m, key) {
        Some(i) => replace(m, i, dependency),
        None => append(m, key, target, dependency),
    }
}
