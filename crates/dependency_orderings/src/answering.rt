// The answer: 5 where it is over a bound, 8 where the output is too short, else the orderings are written.
ghost use Rattle.std.specs.Prelude.{List, [], ◌≡◌, ℕ, ◌<◌, length};
ghost use Rattle.dependencies.specs.Map.{entry_at};
ghost use Rattle.dependencies.specs.Layout.{decode};
ghost use Rattle.dependencies.specs.Inner.{Held};
ghost use Rattle.dependencies.specs.declared.DependencyMap.{DependencyMap as MapOf};
ghost use Rattle.enumeration.specs.Walk.{over_start, prefix_orderings};
ghost use Rattle.enumeration.specs.Inner.{Room, Rows};
ghost use Rattle.products.specs.Generate.{once_each, contributing, generated};
ghost use Rattle.products.specs.Inner.{lists_of, Laid};
ghost use Rattle.dependency_orderings.specs.Calls.{answered, walk_answer, gathered_answer};
ghost use Rattle.dependency_orderings.specs.Inner.{one_list, over_bound, Gathers, GatheredBy};

use crate::writing::{measure_all, write_all};
use crate::{Enumerated, Gathered};
use arena::Refusal;
use dependencies::DependencyMap;
use dependencies::inserting::find_key;
use enumeration::Found;
use enumeration::prefixes::{nothing_found, prefixes_at};
use products::choosing::count_choices;
use products::ordering::factorial;
use products::{Lists, Shape};

// Answers with the orderings of some lists: 5, 8, or they are written.
fn answer(l: Lists, out: &mut [u16]) -> Result<Enumerated, Refusal>
    requires { Laid l }
    ensures { (result, out.new) ≡ answered (generated (lists_of l)) out.old }
{
    let shape = l.shape;
    if shape.size == 0 {
        return Ok(Enumerated { count: 0, used: 0 });
    }
    let n = count_choices(shape)?;
    let places = measure_all(l, n)?;
    if out.len() < places {
        return Err(Refusal::OutputShort);
    }
    let used = write_all(out, l, n);
    Ok(Enumerated {
        count: n * factorial(shape.size),
        used,
    })
}

// The orderings that were found as lists: one list, or none where nothing was found.
fn one_list(found: Found) -> Lists
    ensures { result ≡ one_list found }
{
    let mut ends = [0; 6];
    if found.count == 0 {
        return Lists {
            shape: Shape { size: 0, ends },
            found,
        };
    }
    ends[0] = found.count;
    Lists {
        shape: Shape { size: 1, ends },
        found,
    }
}

// Answers with the orderings that were found.
fn answer_found(found: Found, out: &mut [u16]) -> Result<Enumerated, Refusal>
    requires { Room found × ((os : List (List ℕ)) × Rows found os) }
    ensures { (os : List (List ℕ)) → Rows found os → (result, out.new) ≡ answered os out.old }
{
    if found.over {
        return Err(Refusal::TooLarge);
    }
    answer(one_list(found), out)
}

// Answers with the prefix orderings of the key at a place.
fn answer_place(m: DependencyMap, place: usize, out: &mut [u16]) -> Result<Enumerated, Refusal>
    requires { Held m × (place < m.count) }
    ensures { (result, out.new) ≡ walk_answer (over_start (decode m) (entry_at (decode m) place).dependencies []) out.old }
{
    let found = prefixes_at(m, place, nothing_found())?;
    answer_found(found, out)
}

// Answers with the prefix orderings of a key: 6 where it is not in the map.
pub fn answer_prefixes(m: DependencyMap, key: u16, out: &mut [u16]) -> Result<Enumerated, Refusal>
    requires { Held m }
    ensures { (result, out.new) ≡ walk_answer (prefix_orderings (decode m) key) out.old }
{
    match find_key(m, key) {
        Some(i) => answer_place(m, i, out),
        None => Err(Refusal::UnknownKey),
    }
}

// What was gathered is over a bound: more than 16 different keys, more than 6 that contribute, or orderings over theirs.
#[tactic(auto, unfolding(crate::specs::Inner::over_bound))]
fn over_bound(g: Gathered) -> bool
    ensures { result ≡ over_bound g }
{
    16 < g.different || g.many || g.lists.found.over
}

// Answers with the orderings of what was gathered; where a walk stopped, with its refusal.
pub fn answer_gathered(
    gathered: Result<Gathered, Refusal>,
    out: &mut [u16],
) -> Result<Enumerated, Refusal>
    requires { GatheredBy gathered }
    ensures { (m : MapOf) (ks : List ℕ) → Gathers m ks gathered → (result, out.new) ≡ gathered_answer (contributing (decode m) (once_each [] ks)) (length (once_each [] ks)) out.old }
{
    let g = gathered?;
    if over_bound(g) {
        return Err(Refusal::TooLarge);
    }
    answer(g.lists, out)
}
