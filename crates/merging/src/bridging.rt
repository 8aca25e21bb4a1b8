// `new`, over a list of classes that is checked already: the classes that say nothing go, and those that overlap
// become one; and the answer of a call that made a group.
ghost use Rattle.std.specs.Prelude.{◌≡◌, ◌≤◌, ◌<◌};
ghost use Rattle.classes.specs.Layout.{encode, decode};
ghost use Rattle.classes.specs.Inner.{Coded};
ghost use Rattle.merging.specs.Merging.{dropped_at, kept_classes, last_meeting, bridge_classes, from_classes};
ghost use Rattle.merging.specs.Calls.{made_group};
ghost use Rattle.merging.specs.Inner.{Stepped};

use crate::Bridged;
use crate::extending::{contains_any, extend, is_trivial};
use classes::building::remove_class_at_idx;
use classes::{Changed, Group};

// The class at a place goes if it says nothing.
fn drop_at(g: Group, i: usize) -> Group
    requires { Coded g × (i < g.count) }
    ensures { result ≡ encode g.limit (dropped_at (decode g) i) }
{
    if is_trivial(g, i) {
        remove_class_at_idx(g, i)
    } else {
        g
    }
}

// The classes that say nothing go, back to front.
pub fn drop_trivial(g: Group) -> Group
    requires { Coded g }
    ensures { result ≡ encode g.limit (kept_classes (decode g)) }
{
    let mut out = g;
    for i in (0..g.count).rev() {
        out = drop_at(out, i);
    }
    out
}

// The last class after i that has an expression in common with class i.
fn last_meeting(g: Group, i: usize) -> Option<usize>
    requires { Coded g × (i < g.count) }
    ensures { result ≡ last_meeting (decode g) i }
{
    for j in (i + 1..g.count).rev() {
        if contains_any(g, i, j) {
            return Some(j);
        }
    }
    None
}

// One step of bridging: class i takes in the last class that overlaps with it, or is passed.
fn bridge_step(g: Group, i: usize) -> Bridged
    requires { Coded g × (i < g.count) }
    ensures { Stepped g i result.group result.next }
{
    match last_meeting(g, i) {
        Some(j) => Bridged {
            group: extend(g, i, j),
            next: i,
        },
        None => Bridged {
            group: g,
            next: i + 1,
        },
    }
}

// Classes that overlap become one.
pub fn bridge_classes(g: Group) -> Group
    requires { Coded g }
    ensures { result ≡ encode g.limit (bridge_classes (decode g)) }
{
    let mut out = g;
    let mut i = 0;
    // A step decides whether it goes on at the same class or at the next.
    while i < out.count {
        let step = bridge_step(out, i);
        out = step.group;
        i = step.next;
    }
    out
}

// The group of a list of classes.
pub fn from_classes(list: Group) -> Group
    requires { Coded list }
    ensures { result ≡ encode list.limit (from_classes (decode list)) }
{
    bridge_classes(drop_trivial(list))
}

// A group that was made, with limit 256.
pub fn made(g: Group) -> Changed
    requires { Coded g }
    ensures { result ≡ made_group (decode g) }
{
    Changed {
        answer: Ok(true),
        group: Group { limit: 256, ..g },
    }
}
