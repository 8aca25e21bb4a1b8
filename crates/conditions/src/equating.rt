// Equal conditions, on an arena and a group that are checked already.
ghost use Rattle.std.specs.Prelude.{true, false, [], ◌∷◌, ◌++◌, ◌≡◌, ◌<◌, ◌+◌, eqb, if◌then◌else◌};
ghost use Rattle.arena.specs.Layout.{decode as nodes};
ghost use Rattle.arena.specs.Inner.{Known};
ghost use Rattle.classes.specs.Class.{single};
ghost use Rattle.classes.specs.Group.{class_of, merged_at, joined, pair, equal_condition};
ghost use Rattle.classes.specs.Steps.{judged};
ghost use Rattle.classes.specs.Layout.{encode, decode};
ghost use Rattle.classes.specs.Calls.{changed};
ghost use Rattle.classes.specs.Inner.{Coded, Held};

use arena::Refusal;
use classes::building::{add_class, merge_class_at_idx, merge_last, remove_class_at_idx};
use classes::finding::find_class;
use classes::refusing::refusal;
use classes::single::single_group;
use classes::{Changed, Group};

// An expression that no class holds is pushed to class i. Refusal: 4.
fn push(cells: &[u32; 11265], g: Group, i: usize, e: u32) -> Changed
    requires { (Held (nodes cells.now) g × (i < g.count)) × Known cells.now e }
    ensures { result ≡ changed g.limit (judged g.limit (decode g) (false, merged_at (decode g) i (single (nodes cells.now) e))) }
{
    if g.limit <= g.used {
        return refusal(Refusal::GroupFull, g);
    }
    let one = single_group(cells, e);
    let more = merge_class_at_idx(g, i, one, 0);
    Changed {
        answer: Ok(false),
        group: more,
    }
}

// Two classes become one: the higher joins the end of the lower.
fn bridge_classes(g: Group, low: usize, high: usize) -> Group
    requires { Coded g × ((low < high) × (high < g.count)) }
    ensures { result ≡ encode g.limit (joined (decode g) low high) }
{
    let rest = remove_class_at_idx(g, high);
    merge_class_at_idx(rest, low, g, high)
}

// Two classes, or one named twice, become one.
fn join(g: Group, i: usize, j: usize) -> Group
    requires { Coded g × ((i < g.count) × (j < g.count)) }
    ensures { result ≡ encode g.limit (if eqb i j then decode g else joined (decode g) i j) }
{
    if i == j {
        return g;
    }
    if i < j {
        return bridge_classes(g, i, j);
    }
    bridge_classes(g, j, i)
}

// A new class of two expressions, or of one that is named twice. Refusal: 4.
fn open_class(cells: &[u32; 11265], g: Group, a: u32, b: u32) -> Changed
    requires { Held (nodes cells.now) g × (Known cells.now a × Known cells.now b) }
    ensures { result ≡ changed g.limit (judged g.limit (decode g) (true, decode g ++ (pair (nodes cells.now) a b ∷ []))) }
{
    if 64 <= g.count {
        return refusal(Refusal::GroupFull, g);
    }
    if g.limit <= g.used {
        return refusal(Refusal::GroupFull, g);
    }
    let one = single_group(cells, a);
    let next = add_class(g, one, 0);
    if a == b {
        return Changed {
            answer: Ok(true),
            group: next,
        };
    }
    if g.limit <= g.used + 1 {
        return refusal(Refusal::GroupFull, g);
    }
    let other = single_group(cells, b);
    Changed {
        answer: Ok(true),
        group: merge_last(next, other, 0),
    }
}

// The equal condition, by the classes of its two sides. Refusal: 4.
fn equate(
    cells: &[u32; 11265],
    g: Group,
    a: u32,
    b: u32,
    left: Option<usize>,
    right: Option<usize>,
) -> Changed
    requires { (Held (nodes cells.now) g × (Known cells.now a × Known cells.now b)) × ((left ≡ class_of (decode g) a) × (right ≡ class_of (decode g) b)) }
    ensures { result ≡ changed g.limit (judged g.limit (decode g) (equal_condition (nodes cells.now) (decode g) a b)) }
{
    match (left, right) {
        (Some(i), Some(j)) => Changed {
            answer: Ok(false),
            group: join(g, i, j),
        },
        (Some(i), None) => push(cells, g, i, b),
        (None, Some(j)) => push(cells, g, j, a),
        (None, None) => open_class(cells, g, a, b),
    }
}

// The equal condition of two expressions. Refusal: 4.
pub fn equal_condition_in(cells: &[u32; 11265], g: Group, a: u32, b: u32) -> Changed
    requires { Held (nodes cells.now) g × (Known cells.now a × Known cells.now b) }
    ensures { result ≡ changed g.limit (judged g.limit (decode g) (equal_condition (nodes cells.now) (decode g) a b)) }
{
    let left = find_class(g, a);
    let right = find_class(g, b);
    equate(cells, g, a, b, left, right)
}
