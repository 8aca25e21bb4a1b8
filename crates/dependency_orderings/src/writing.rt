// Orderings in the output: first how many places they take, then their numbers, each ordering directly after the one
// before it.
ghost use Rattle.std.specs.Prelude.{true, ◌++◌, ◌≡◌, ◌≤◌, ◌<◌, ◌+◌, ◌*◌, length, drop, IfOk};
ghost use Rattle.orderings.specs.Layout.{keys_of};
ghost use Rattle.orderings.specs.Inner.{ShortOrdering, all_short};
ghost use Rattle.products.specs.Orders.{product};
ghost use Rattle.products.specs.Generate.{in_all_orders, all_orders};
ghost use Rattle.products.specs.Inner.{choice_of, Chosen, lists_of};
ghost use Rattle.dependency_orderings.specs.Output.{written, written_all};
ghost use Rattle.dependency_orderings.specs.Inner.{measured, Ready};

use arena::Refusal;
use orderings::Ordering;
use products::choosing::choice_at;
use products::ordering::{factorial, ordering_at};
use products::{Choice, Lists};

// A number of keys, as a place of the output.
fn narrow(n: usize) -> u16
    requires { n ≤ 16 }
    ensures { result ≡ n }
{
    n as u16
}

// Writes an ordering at the beginning of what is lent: its key count, then expression and options of each key.
fn write_ordering(out: &mut [u16], o: Ordering)
    requires { ShortOrdering o × (1 + 2 * o.size ≤ length out.old) }
    ensures { out.new ≡ written (keys_of o) ++ drop (1 + 2 * o.size) out.old }
{
    let n = o.size;
    out[0] = narrow(n);
    for k in 0..n {
        let key = o.keys[k];
        out[2 * k + 1] = key / 4;
        out[2 * k + 2] = key % 4;
    }
}

// How many places the orderings of a choice take, in all orders, or that one has more than 16 keys.
fn measure_choice(c: Choice) -> Result<usize, Refusal>
    requires { Chosen c }
    ensures { (result ≡ measured (in_all_orders (choice_of c))) × IfOk result (λ n. n ≤ 23760) }
{
    let orders = factorial(c.size);
    let mut total = 0;
    for k in 0..orders {
        let o = ordering_at(c, k)?;
        total += 1 + 2 * o.size;
    }
    Ok(total)
}

// How many places the orderings of n choices take, or that one has more than 16 keys.
pub fn measure_all(l: Lists, n: usize) -> Result<usize, Refusal>
    requires { Ready l n }
    ensures { result ≡ measured (all_orders (product (lists_of l))) }
{
    let mut total = 0;
    for k in 0..n {
        total += measure_choice(choice_at(l, k))?;
    }
    Ok(total)
}

// Writes a choice in all orders at the beginning of what is lent, and answers how many places were written.
fn write_choice(out: &mut [u16], c: Choice) -> usize
    requires { Chosen c × ((all_short (in_all_orders (choice_of c)) ≡ true) × (length (written_all (in_all_orders (choice_of c))) ≤ length out.old)) }
    ensures { (result ≡ length (written_all (in_all_orders (choice_of c)))) × (out.new ≡ written_all (in_all_orders (choice_of c)) ++ drop (length (written_all (in_all_orders (choice_of c)))) out.old) }
{
    let n = factorial(c.size);
    let mut at = 0;
    for number in 0..n {
        let o = ordering_at(c, number).unwrap();
        write_ordering(&mut out[at..], o);
        at += 1 + 2 * o.size;
    }
    at
}

// Writes n choices, each in all orders, from the output's first place on, and answers how many places were written.
pub fn write_all(out: &mut [u16], l: Lists, n: usize) -> usize
    requires { Ready l n × ((all_short (all_orders (product (lists_of l))) ≡ true) × (length (written_all (all_orders (product (lists_of l)))) ≤ length out.old)) }
    ensures { (result ≡ length (written_all (all_orders (product (lists_of l))))) × (out.new ≡ written_all (all_orders (product (lists_of l))) ++ drop (length (written_all (all_orders (product (lists_of l))))) out.old) }
{
    let mut at = 0;
    for k in 0..n {
        let used = write_choice(&mut out[at..], choice_at(l, k));
        at += used;
    }
    at
}
