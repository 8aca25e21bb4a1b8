// Choices of one ordering of each list; the last list varies fastest.
ghost use Rattle.std.specs.Prelude.{[], ◌≡◌, ◌≤◌, ◌<◌, ◌+◌, get_or, drop};
ghost use Rattle.products.specs.Orders.{product};
ghost use Rattle.products.specs.Inner.{start_of, length_of, lengths_of, times_all, lists_of, Shaped, Laid, choice_row, choices, counted};

use crate::ordering::factorial;
use crate::{Choice, Lists, Shape};
use arena::Refusal;
use orderings::making::nothing;

// Where a list begins.
pub fn start_of(s: Shape, j: usize) -> usize
    requires { j ≤ 6 }
    ensures { result ≡ start_of s j }
{
    if j == 0 { 0 } else { s.ends[j - 1] }
}

// How many orderings a list has.
fn length_of(s: Shape, j: usize) -> usize
    requires { Shaped s × (j < s.size) }
    ensures { result ≡ length_of s j }
{
    s.ends[j] - start_of(s, j)
}

// How many choices the lists from one on give.
fn choices_from(s: Shape, j: usize) -> usize
    requires { Shaped s × ((j ≤ s.size) × (times_all (lengths_of s) ≤ 1024)) }
    ensures { result ≡ times_all (drop j (lengths_of s)) }
{
    let mut total = 1;
    for i in (j..s.size).rev() {
        total = length_of(s, i) * total;
    }
    total
}

// The choice of a number: one ordering of each list.
pub fn choice_at(l: Lists, number: usize) -> Choice
    requires { Laid l × ((choices (lists_of l) ≤ 1024) × (number < choices (lists_of l))) }
    ensures { result ≡ choice_row (get_or (product (lists_of l)) number []) }
{
    let shape = l.shape;
    let found = l.found;
    let n = shape.size;
    let mut out = Choice {
        size: n,
        rows: [nothing(); 6],
    };
    let mut rest = number;
    for j in 0..n {
        let after = choices_from(shape, j + 1);
        let at = start_of(shape, j) + rest / after;
        let row = found.rows[at];
        out.rows[j] = row;
        rest = rest % after;
    }
    out
}

// How many choices there are: too large where their orders are more than 1,024.
pub fn count_choices(s: Shape) -> Result<usize, Refusal>
    requires { Shaped s }
    ensures { result ≡ counted (lengths_of s) }
{
    let orders = factorial(s.size);
    let mut total = 1;
    for j in (0..s.size).rev() {
        total = length_of(s, j) * total;
        if 1024 < orders * total {
            return Err(Refusal::TooLarge);
        }
    }
    Ok(total)
}
