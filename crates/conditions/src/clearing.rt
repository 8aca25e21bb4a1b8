// Dropping the constants that may differ from partition to partition, on a group that is checked already.
ghost use Rattle.std.specs.Prelude.{◌≡◌, ◌≤◌, ◌<◌, ◌+◌, ◌-◌};
ghost use Rattle.classes.specs.Group.{clear_rest};
ghost use Rattle.classes.specs.Layout.{decode};
ghost use Rattle.classes.specs.Calls.{changed};
ghost use Rattle.classes.specs.Inner.{Coded};
ghost use Rattle.conditions.specs.Steps.{clear};

use classes::building::remove_class_at_idx;
use classes::{Changed, Group};

// Where clearing has come to: the group, the next place, and whether anything changed.
#[derive(Clone, Copy)]
pub struct Clearing {
    pub group: Group,
    pub next: usize,
    pub changed: bool,
}

// One step at place i: a heterogeneous class of one member goes and the last moves into its gap; a larger one
// loses its constant; any other is passed.
fn clear_step(g: Group, i: usize, changed: bool) -> Clearing
    requires { Coded g × (i < g.count) }
    ensures { ((Coded result.group × (result.group.limit ≡ g.limit)) × ((result.next ≤ result.group.count) × (result.group.count - result.next < g.count - i))) × (clear_rest i changed (decode g) ≡ clear_rest result.next result.changed (decode result.group)) }
{
    if g.flavours[i] != 1 {
        return Clearing {
            group: g,
            next: i + 1,
            changed,
        };
    }
    if g.sizes[i] == 1 {
        return Clearing {
            group: remove_class_at_idx(g, i),
            next: i,
            changed: true,
        };
    }
    let mut next = g;
    next.flavours[i] = 0;
    Clearing {
        group: next,
        next: i + 1,
        changed: true,
    }
}

// All of a group's classes, front to back. The answer says whether anything changed.
pub fn clear_in(given: Group) -> Changed
    requires { Coded given }
    ensures { result ≡ changed given.limit (clear (decode given)) }
{
    let mut g = given;
    let mut i = 0;
    let mut any = false;
    // No count drives this loop: a step may leave the place as it is, where the last class moves into the gap.
    while i < g.count {
        let step = clear_step(g, i, any);
        let rest = step.group;
        g = rest;
        i = step.next;
        any = step.changed;
    }
    Changed {
        answer: Ok(any),
        group: g,
    }
}
