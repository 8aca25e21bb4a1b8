// The prefix orderings of a key of the map: the orderings that lead to its dependencies, by one account of the pairs.
ghost use Rattle.std.specs.Prelude.{◌≡◌, ◌<◌};
ghost use Rattle.dependencies.specs.Inner.{Held};
ghost use Rattle.enumeration.specs.Inner.{Room, none_found, Began};

use crate::Found;
use crate::marking::new_enumerator;
use crate::walking::construct_orderings;
use arena::Refusal;
use dependencies::DependencyMap;
use orderings::making::nothing;

// No orderings.
pub fn nothing_found() -> Found
    ensures { result ≡ none_found }
{
    Found {
        over: false,
        count: 0,
        rows: [nothing(); 1024],
    }
}

// The prefix orderings of the key at a place, behind those that were found before them. Refusals: 6, 7.
pub fn prefixes_at(m: DependencyMap, place: usize, found: Found) -> Result<Found, Refusal>
    requires { (Held m × (place < m.count)) × Room found }
    ensures { Began m place found result }
{
    let node = m.list[place];
    let mut walk = new_enumerator();
    let mut rows = found;
    for k in 0..node.size {
        let next = construct_orderings(m, walk, rows, node.dependencies[k])?;
        walk = next.walk;
        rows = next.found;
    }
    Ok(rows)
}
