// The orders of places in lexicographic order, and a choice in such an order, one ordering behind the other.
ghost use Rattle.std.specs.Prelude.{[], ◌∷◌, map, ◌≡◌, ℕ, ◌≤◌, ◌<◌, get_or};
ghost use Rattle.orderings.specs.Inner.{extended_of};
ghost use Rattle.orderings.specs.Lists.{ordering_at};
ghost use Rattle.products.specs.Orders.{passing, orders};
ghost use Rattle.products.specs.Generate.{chained, in_all_orders};
ghost use Rattle.products.specs.Inner.{choice_of, Chosen, order_row, places_of, Placed, factorial as factorial_of};

use crate::{Choice, Order};
use arena::Refusal;
use orderings::Ordering;
use orderings::pushing::extend;

// The products of the numbers from 1 to n, for each n from 0 to 6.
const FACTORIALS: [usize; 7] = [1, 1, 2, 6, 24, 120, 720];

// The product of the numbers from 1 to n.
pub fn factorial(n: usize) -> usize
    requires { n ≤ 6 }
    ensures { result ≡ factorial_of n }
{
    FACTORIALS[n]
}

// A place of n as a place of one more, where a place is passed over.
#[tactic(auto, unfolding(crate::specs::Orders::passing))]
fn pass(place: usize, j: usize) -> usize
    requires { j < 6 }
    ensures { result ≡ passing place j }
{
    if j < place { j } else { j + 1 }
}

// The order of one place more that begins with a place.
fn begin_with(order: Order, place: usize) -> Order
    requires { (Placed order × (order.size < 6)) × ((i : ℕ) → i < order.size → get_or order.places i 0 < 6) }
    ensures { result ≡ order_row (place ∷ map (passing place) (places_of order)) }
{
    let n = order.size;
    let mut out = Order {
        size: n + 1,
        places: [0; 6],
    };
    out.places[0] = place;
    for i in 0..n {
        out.places[i + 1] = pass(place, order.places[i]);
    }
    out
}

// The order of n places with a number: its first place from the quotient by the number of orders of the others, the
// others from the remainder.
fn order_at(n: usize, number: usize) -> Order
    requires { (n ≤ 6) × (number < factorial_of n) }
    ensures { result ≡ order_row (get_or (orders n) number []) }
{
    if n == 0 {
        return Order {
            size: 0,
            places: [0; 6],
        };
    }
    let others = factorial(n - 1);
    begin_with(order_at(n - 1, number % others), number / others)
}

// The orderings of a choice in an order, one behind the other.
fn chain(choice: Choice, order: Order) -> Result<Ordering, Refusal>
    requires { (Chosen choice × (order.size ≡ choice.size)) × ((i : ℕ) → i < order.size → get_or order.places i 0 < choice.size) }
    ensures { result ≡ extended_of (chained (map (λ (i : ℕ). get_or (choice_of choice) i []) (places_of order))) }
{
    let mut out = choice.rows[order.places[0]];
    for i in 1..order.size {
        out = extend(out, choice.rows[order.places[i]])?;
    }
    Ok(out)
}

// A choice in the order with a number.
pub fn ordering_at(choice: Choice, number: usize) -> Result<Ordering, Refusal>
    requires { Chosen choice × (number < factorial_of choice.size) }
    ensures { result ≡ extended_of (ordering_at (in_all_orders (choice_of choice)) number) }
{
    chain(choice, order_at(choice.size, number))
}
