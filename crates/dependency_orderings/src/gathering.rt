// The walks of the keys that are given: each different one once, in order of arrival.
ghost use Rattle.std.specs.Prelude.{map, ◌≡◌, ℕ, ◌<◌, ◌/◌, length};
ghost use Rattle.std.specs.Prelude.{Some};
ghost use Rattle.sort_keys.specs.Layout.{keys_of, packed as packed_key};
ghost use Rattle.dependencies.specs.Map.{place_of};
ghost use Rattle.dependencies.specs.Layout.{decode};
ghost use Rattle.dependencies.specs.Inner.{Held};
ghost use Rattle.dependency_orderings.specs.Inner.{no_lists, with_found, with_key, counting, ungathered, Standing, Gathers, Steps, stepped, KeysFit, key_at};

use crate::Gathered;
use arena::Refusal;
use dependencies::DependencyMap;
use dependencies::inserting::{find_key, packed};
use enumeration::Found;
use enumeration::prefixes::{nothing_found, prefixes_at};
use products::choosing::start_of;
use products::{Lists, Shape};

// No lists.
fn no_lists() -> Lists
    ensures { result ≡ no_lists }
{
    Lists {
        shape: Shape {
            size: 0,
            ends: [0; 6],
        },
        found: nothing_found(),
    }
}

// Nothing is gathered.
fn nothing_gathered() -> Gathered
    ensures { result ≡ ungathered }
{
    Gathered {
        different: 0,
        walked: [false; 64],
        many: false,
        lists: no_lists(),
    }
}

// One more of the different keys; 17 stands for more than 16.
#[tactic(auto, unfolding(crate::specs::Inner::counting))]
fn count_key(n: usize) -> usize
    ensures { result ≡ counting n }
{
    if 17 <= n { 17 } else { n + 1 }
}

// What is gathered with the orderings after one more walk: a list more where some were found.
fn add_found(g: Gathered, found: Found) -> Gathered
    requires { Standing g }
    ensures { result ≡ with_found g found }
{
    let lists = g.lists;
    let shape = lists.shape;
    let n = shape.size;
    let walked = g.walked;
    if found.count == start_of(shape, n) {
        return Gathered {
            different: g.different,
            walked,
            many: g.many,
            lists: Lists { shape, found },
        };
    }
    if 6 <= n {
        return Gathered {
            different: g.different,
            walked,
            many: true,
            lists: Lists { shape, found },
        };
    }
    let mut ends = shape.ends;
    ends[n] = found.count;
    Gathered {
        different: g.different,
        walked,
        many: g.many,
        lists: Lists {
            shape: Shape { size: n + 1, ends },
            found,
        },
    }
}

// What is gathered, and a key more that is walked.
fn note_key(g: Gathered, place: usize) -> Gathered
    requires { place < 64 }
    ensures { result ≡ with_key g place }
{
    let mut more = g;
    more.walked[place] = true;
    more.different = count_key(g.different);
    more
}

// The key at a place of the map: what is gathered after it; a key that was walked adds nothing.
fn add_place(m: DependencyMap, g: &mut Gathered, place: usize) -> Result<(), Refusal>
    requires { (Held m × (place < m.count)) × Standing g.old }
    ensures { (k : ℕ) → place_of (decode m) k ≡ Some place → Steps m g.old k (stepped g.new result) }
{
    if g.walked[place] {
        return Ok(());
    }
    let found = prefixes_at(m, place, g.lists.found)?;
    *g = add_found(note_key(*g, place), found);
    Ok(())
}

// A key: what is gathered after it; 6 where it is not in the map.
fn add_key(m: DependencyMap, g: &mut Gathered, key: u16) -> Result<(), Refusal>
    requires { Held m × Standing g.old }
    ensures { Steps m g.old key (stepped g.new result) }
{
    match find_key(m, key) {
        Some(i) => add_place(m, g, i),
        None => Err(Refusal::UnknownKey),
    }
}

// A given key as one number.
fn key_at(keys: &[u32], k: usize) -> u16
    requires { KeysFit keys.now × (k < length keys.now / 2) }
    ensures { result ≡ key_at keys.now k }
{
    packed(keys[2 * k], keys[2 * k + 1])
}

// The walks of the given keys, until one stops. Refusals: 6, 7.
pub fn gather(m: DependencyMap, keys: &[u32]) -> Result<Gathered, Refusal>
    requires { Held m × KeysFit keys.now }
    ensures { Gathers m (map packed_key (keys_of keys.now)) result }
{
    let mut g = nothing_gathered();
    for k in 0..keys.len() / 2 {
        add_key(m, &mut g, key_at(keys, k))?;
    }
    Ok(g)
}
