// The account of expanded pairs: a pair of target and dependency is marked wherever it stands in the map.
ghost use Rattle.std.specs.Prelude.{false, ◌||◌, ◌≡◌, ◌≤◌, ◌<◌, get_or};
ghost use Rattle.enumeration.specs.Inner.{hits, marked_node, marked, fresh, Opened};

use crate::{DependencyEnumerator, Frame, Seen};
use dependencies::{DependencyMap, DependencyNode};

// An account without a way down and without pairs.
pub fn new_enumerator() -> DependencyEnumerator
    ensures { result ≡ fresh }
{
    DependencyEnumerator {
        depth: 0,
        frames: [Frame { place: 0, next: 0 }; 1025],
        seen: [Seen { told: [false; 16] }; 64],
    }
}

// Dependency k of an entry and the entry's target are a given pair.
#[tactic(auto, unfolding(crate::specs::Inner::hits))]
fn is_pair(node: DependencyNode, k: usize, target: u16, dependency: u16) -> bool
    requires { k < 16 }
    ensures { result ≡ hits node k target dependency }
{
    node.projected && node.target == target && node.dependencies[k] == dependency
}

// Dependency k of an entry is marked after a pair is.
fn told_after(node: DependencyNode, seen: Seen, k: usize, target: u16, dependency: u16) -> bool
    requires { k < 16 }
    ensures { result ≡ (get_or seen.told k false || hits node k target dependency) }
{
    seen.told[k] || is_pair(node, k, target, dependency)
}

// The marks of an entry after a pair is marked.
fn mark_node(node: DependencyNode, seen: Seen, target: u16, dependency: u16) -> Seen
    ensures { result ≡ marked_node node seen target dependency }
{
    let mut out = Seen { told: [false; 16] };
    for k in 0..16 {
        out.told[k] = told_after(node, seen, k, target, dependency);
    }
    out
}

// The account after a pair is marked, wherever it stands in the map.
pub fn mark(
    m: DependencyMap,
    walk: DependencyEnumerator,
    target: u16,
    dependency: u16,
) -> DependencyEnumerator
    ensures { result ≡ marked m walk target dependency }
{
    let mut seen = [Seen { told: [false; 16] }; 64];
    for i in 0..64 {
        seen[i] = mark_node(m.list[i], walk.seen[i], target, dependency);
    }
    DependencyEnumerator {
        depth: walk.depth,
        frames: walk.frames,
        seen,
    }
}

// The first dependency that is not marked, from one on; the number of dependencies where there is none.
pub fn next_open(seen: Seen, from: usize, size: usize) -> usize
    requires { (from ≤ size) × (size ≤ 16) }
    ensures { Opened seen from size result }
{
    (from..size).find(|k| !seen.told[*k]).unwrap_or(size)
}
