// The two questions on a list that is checked already.
ghost use Rattle.std.specs.Prelude.{◌&&◌, ◌≡◌, ◌<◌, eqb, get_or};
ghost use Rattle.orderings.specs.Ordering.{expr_of, options_of};
ghost use Rattle.orderings.specs.Lists.{ordering_at};
ghost use Rattle.ordering_questions.specs.Questions.{get_options, leads_with, partial_const};
ghost use Rattle.orderings.specs.Layout.{decode};
ghost use Rattle.orderings.specs.Inner.{Held};

use orderings::Orderings;

// The key that leads ordering i, as a number of an expression's width.
fn leading(g: Orderings, i: usize) -> u32
    requires { Held g × (i < g.count) }
    ensures { result ≡ get_or (ordering_at (decode g) i) 0 0 }
{
    let o = g.list[i];
    u32::from(o.keys[0])
}

// The options of the first ordering that an expression leads.
pub fn options_in(g: Orderings, e: u32) -> Option<u32>
    requires { Held g }
    ensures { result ≡ get_options (decode g) e }
{
    (0..g.count)
        .map(|i| leading(g, i))
        .find(|key| *key / 4 == e)
        .map(|key| key % 4)
}

// An expression leads an ordering with these options.
fn leads_with(g: Orderings, e: u32, options: u32) -> bool
    requires { Held g }
    ensures { result ≡ leads_with (decode g) e options }
{
    (0..g.count).any(|i| led_by(leading(g, i), e, options))
}

// A key has this expression and these options.
#[tactic(auto, unfolding(orderings::specs::Ordering::expr_of, orderings::specs::Ordering::options_of))]
fn led_by(key: u32, e: u32, options: u32) -> bool
    ensures { result ≡ (eqb (expr_of key) e && eqb (options_of key) options) }
{
    key / 4 == e && key % 4 == options
}

// An expression leads an ordering with one of two options and an ordering with the other.
fn leads_both(g: Orderings, e: u32, one: u32, other: u32) -> bool
    requires { Held g }
    ensures { result ≡ (leads_with (decode g) e one && leads_with (decode g) e other) }
{
    leads_with(g, e, one) && leads_with(g, e, other)
}

// An expression leads with options and with their opposite.
#[tactic(auto, unfolding(crate::specs::Questions::partial_const))]
pub fn partial_in(g: Orderings, e: u32) -> bool
    requires { Held g }
    ensures { result ≡ partial_const (decode g) e }
{
    leads_both(g, e, 0, 3) || leads_both(g, e, 1, 2)
}
