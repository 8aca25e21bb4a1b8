// What lists are made of: an empty place, an empty list, one ordering more; and a list beside a refusal.
ghost use Rattle.std.specs.Prelude.{[], ◌≡◌, ◌<◌};
ghost use Rattle.orderings.specs.Layout.{row};
ghost use Rattle.orderings.specs.Inner.{Short, empties, appended};

use crate::{Listed, Ordering, Orderings};
use arena::Refusal;

// No ordering: what an unused place holds.
pub fn nothing() -> Ordering
    ensures { result ≡ row [] }
{
    Ordering {
        size: 0,
        keys: [0u16; 16],
    }
}

// No orderings.
pub fn no_orderings() -> Orderings
    ensures { result ≡ empties }
{
    Orderings {
        count: 0,
        list: [nothing(); 32],
    }
}

// A list with one more ordering at its end.
pub fn append(g: Orderings, o: Ordering) -> Orderings
    requires { Short g × (g.count < 32) }
    ensures { result ≡ appended g o }
{
    let n = g.count;
    let mut more = g;
    more.list[n] = o;
    more.count = n + 1;
    more
}

// A list beside a refusal.
pub fn refusal(why: Refusal, list: Orderings) -> Listed
    ensures { result ≡ record { done = Err why; list = list } }
{
    Listed {
        done: Err(why),
        list,
    }
}
