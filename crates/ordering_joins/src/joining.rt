// Orderings out of the orderings of one list, or of two, that are checked already.
ghost use Rattle.std.specs.Prelude.{◌≡◌, ◌++◌, ◌≤◌, ◌<◌, ◌+◌, ◌*◌};
ghost use Rattle.orderings.specs.Lists.{output_ordering, suffixed, join_suffix};
ghost use Rattle.orderings.specs.Layout.{keys_of, decode};
ghost use Rattle.ordering_joins.specs.Calls.{output_of};
ghost use Rattle.orderings.specs.Calls.{listed};
ghost use Rattle.orderings.specs.Inner.{Held, HeldOrdering, Short, made};
ghost use Rattle.ordering_joins.specs.Inner.{made_short};

use arena::Refusal;
use orderings::making::{append, no_orderings, nothing, refusal};
use orderings::pushing::extend;
use orderings::{Listed, Ordering, Orderings};

// The joined ordering of all: too large where it has more than 16 keys.
pub fn output_in(g: Orderings) -> Result<Ordering, Refusal>
    requires { Held g }
    ensures { result ≡ output_of (output_ordering (decode g)) }
{
    let mut out = nothing();
    for i in 0..g.count {
        out = extend(out, g.list[i])?;
    }
    Ok(out)
}

// All orderings of a list, each extended by one, at the end of another list: too large where one has more than 16 keys.
fn suffix(out: Orderings, g: Orderings, p: Ordering) -> Result<Orderings, Refusal>
    requires { (Short out × Held g) × (HeldOrdering p × (out.count + g.count ≤ 32)) }
    ensures { result ≡ made_short (decode out ++ suffixed (decode g) (keys_of p)) }
{
    let mut list = out;
    for i in 0..g.count {
        let one = extend(g.list[i], p)?;
        list = append(list, one);
    }
    Ok(list)
}

// Each ordering of a list extended by each of another: too large where there are more than 32, or one has more than 16
// keys.
fn join_lists(g: Orderings, h: Orderings) -> Result<Orderings, Refusal>
    requires { Held g × Held h }
    ensures { result ≡ made (join_suffix (decode g) (decode h)) }
{
    let n = g.count;
    let m = h.count;
    if m == 0 {
        return Ok(g);
    }
    if 32 < n * m {
        return Err(Refusal::TooLarge);
    }
    let mut list = no_orderings();
    for j in 0..m {
        list = suffix(list, g, h.list[j])?;
    }
    Ok(list)
}

// The same, beside a refusal the list that was given.
pub fn join_in(g: Orderings, h: Orderings) -> Listed
    requires { Held g × Held h }
    ensures { result ≡ listed g (join_suffix (decode g) (decode h)) }
{
    match join_lists(g, h) {
        Ok(list) => Listed { done: Ok(()), list },
        Err(why) => refusal(why, g),
    }
}
