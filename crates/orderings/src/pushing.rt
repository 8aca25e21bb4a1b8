// One ordering (`LexOrdering`): pushing and extending drop a key whose expression is already there, with any options.
ghost use Rattle.std.specs.Prelude.{◌≡◌};
ghost use Rattle.orderings.specs.Ordering.{has_expr, pushed, extended};
ghost use Rattle.orderings.specs.Layout.{keys_of};
ghost use Rattle.orderings.specs.Inner.{ShortOrdering, extended_of};

use crate::Ordering;
use crate::checking::expr_of;
use arena::Refusal;

// An ordering has an expression, with any options.
fn has_expr(o: Ordering, expr: usize) -> bool
    requires { ShortOrdering o }
    ensures { result ≡ has_expr expr (keys_of o) }
{
    (0..o.size).any(|k| expr_of(o.keys[k]) == expr)
}

// A key is pushed: too large where the ordering then has more than 16 keys.
pub fn push(o: Ordering, key: u16) -> Result<Ordering, Refusal>
    requires { ShortOrdering o }
    ensures { result ≡ extended_of (pushed (keys_of o) key) }
{
    if has_expr(o, expr_of(key)) {
        return Ok(o);
    }
    let n = o.size;
    if 16 <= n {
        return Err(Refusal::TooLarge);
    }
    let mut more = o;
    more.keys[n] = key;
    more.size = n + 1;
    Ok(more)
}

// An ordering is extended by another's keys, pushed one after the other.
pub fn extend(o: Ordering, p: Ordering) -> Result<Ordering, Refusal>
    requires { ShortOrdering o × ShortOrdering p }
    ensures { result ≡ extended_of (extended (keys_of o) (keys_of p)) }
{
    let mut out = o;
    for k in 0..p.size {
        out = push(out, p.keys[k])?;
    }
    Ok(out)
}
