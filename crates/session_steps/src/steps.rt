// One record of a session, on an arena, a group and orderings that are checked already.
ghost use Rattle.std.specs.Prelude.{◌∷◌, [], ◌≡◌, ℕ, ◌≤◌, ◌<◌, ◌+◌, ◌*◌, ltb, leb, length, get_or, take};
ghost use Rattle.laws.specs.Tests.{each};
ghost use Rattle.arena.specs.Layout.{decode as nodes};
ghost use Rattle.arena.specs.Calls.{in_cells, add_column, add_literal, add_operation};
ghost use Rattle.arena.specs.Inner.{Holds};
ghost use Rattle.conditions.specs.Steps.{add_equal};
ghost use Rattle.classes.specs.Layout.{decode};
ghost use Rattle.classes.specs.Calls.{changed};
ghost use Rattle.questions.specs.Calls.{equal_answer};
ghost use Rattle.classes.specs.Inner.{Held};
ghost use Rattle.normal.specs.Calls.{normalize_expr};
ghost use Rattle.orderings.specs.Layout.{decode as orderings_in};
ghost use Rattle.orderings.specs.Inner.{Held as HeldList};
ghost use Rattle.records.specs.Fields.{fields};
ghost use Rattle.records.specs.Record.{Record, read_record, item_of, keys_in};
ghost use Rattle.session_steps.specs.State.{added_reply, normal_reply, equality_reply, say_constant, key_expr, key_options, add_ordering};
ghost use Rattle.session_steps.specs.Inner.{Fit, Went, said_of, said_by, told, listed_of, lent_keys};

use crate::holding::{Holding, Said, Stepped};
use arena::Refusal;
use arena::adding::{column_row, literal_row, operation_row, place};
use arena::cells::node_count;
use classes::refusing::refusal;
use classes::{Changed, Constant, Group};
use conditions::constants::{add_constant_in, can_say};
use conditions::equating::equal_condition_in;
use normal::normalizing::normalize_in;
use orderings::{Listed, Orderings};
use questions::questions::equal_in;
use records::Item;
use records::fields::{field, index};
use records::kinds::body_of;
use reduction::lent::add_in;

// An answer of which only a refusal is told.
#[tactic(auto, unfolding(crate::specs::Inner::told))]
fn quiet<T: Drop>(answer: Result<T, Refusal>) -> Result<Said, Refusal>
    ensures { result ≡ told answer }
{
    match answer {
        Ok(_) => Ok(Said::Quiet),
        Err(why) => Err(why),
    }
}

// Adds a column.
fn add_column_in(cells: &mut [u32; 11265], name: u16, index: u16) -> Result<Said, Refusal>
    requires { Holds cells.old }
    ensures { (result, cells.new) ≡ in_cells (said_by added_reply (add_column name index (nodes cells.old))) }
{
    let row = column_row(name, index);
    quiet(place(cells, &row))
}

// Adds a literal.
fn add_literal_in(cells: &mut [u32; 11265], value: u32) -> Result<Said, Refusal>
    requires { Holds cells.old }
    ensures { (result, cells.new) ≡ in_cells (said_by added_reply (add_literal value (nodes cells.old))) }
{
    let row = literal_row(value);
    quiet(place(cells, &row))
}

// Each of the n children in a body is below a count.
fn children_below(body: &[u8], n: usize, count: usize) -> bool
    requires { length body.now ≡ 4 + 2 * n }
    ensures { result ≡ each (λ k. ltb (get_or (fields body.now 4 n) k 0) count) n }
{
    (0..n).all(|k| index(field(body, 4 + 2 * k)) < count)
}

// The n children in a body, at most 8.
fn children_of(body: &[u8], n: usize) -> [u32; 8]
    requires { (length body.now ≡ 4 + 2 * n) × (n ≤ 8) }
    ensures { (length result ≡ 8) × (take n result ≡ fields body.now 4 n) }
{
    let mut children = [0u32; 8];
    for k in 0..n {
        children[k] = u32::from(field(body, 4 + 2 * k));
    }
    children
}

// Adds an operation over the n children in a body: 1 where one is unknown, 2 where there are more than 8.
fn add_operation_in(
    cells: &mut [u32; 11265],
    label: u32,
    body: &[u8],
    n: usize,
) -> Result<Said, Refusal>
    requires { Holds cells.old × (length body.now ≡ 4 + 2 * n) }
    ensures { (result, cells.new) ≡ in_cells (said_by added_reply (add_operation label (fields body.now 4 n) (nodes cells.old))) }
{
    let count = node_count(cells);
    if !children_below(body, n, count) {
        return Err(Refusal::UnknownExpression);
    }
    if 8 < n {
        return Err(Refusal::TooManyChildren);
    }
    let children = children_of(body, n);
    let row = operation_row(label, &children[..n]);
    quiet(place(cells, &row))
}

// An equal condition: 1 where an expression is unknown.
fn equal_pair_in(cells: &[u32; 11265], g: Group, a: u16, b: u16) -> Changed
    requires { Holds cells.now × Held (nodes cells.now) g }
    ensures { result ≡ changed g.limit (add_equal g.limit (nodes cells.now) a b (decode g)) }
{
    let n = node_count(cells);
    if n <= index(a) {
        return refusal(Refusal::UnknownExpression, g);
    }
    if n <= index(b) {
        return refusal(Refusal::UnknownExpression, g);
    }
    equal_condition_in(cells, g, u32::from(a), u32::from(b))
}

// A constant: 12 where it can't be said, 1 where the expression is unknown.
fn say_constant_in(cells: &[u32; 11265], g: Group, e: u16, flavour: u16, value: u32) -> Changed
    requires { (Holds cells.now × Held (nodes cells.now) g) × (g.limit ≡ 256) }
    ensures { result ≡ changed g.limit (say_constant e flavour value (nodes cells.now) (decode g)) }
{
    if !can_say(u32::from(flavour), value) {
        return refusal(Refusal::BadNumber, g);
    }
    let n = node_count(cells);
    if n <= index(e) {
        return refusal(Refusal::UnknownExpression, g);
    }
    let said = Constant::from_numbers(u32::from(flavour) + 1, value);
    add_constant_in(cells, g, u32::from(e), said)
}

// The normal form of an expression: 1 where it is unknown.
fn normal_form_in(cells: &mut [u32; 11265], g: Group, e: u16) -> Result<Said, Refusal>
    requires { Holds cells.old × Held (nodes cells.old) g }
    ensures { (result, cells.new) ≡ in_cells (said_by (normal_reply e) (normalize_expr e (nodes cells.old) (decode g))) }
{
    let n = node_count(cells);
    if n <= index(e) {
        return Err(Refusal::UnknownExpression);
    }
    let expr = u32::from(e);
    let form = normalize_in(cells, g, expr)?;
    Ok(Said::NormalForm(expr, form))
}

// The equality question: 1 where an expression is unknown.
fn equality_in(cells: &[u32; 11265], g: Group, a: u16, b: u16) -> Result<Said, Refusal>
    requires { Holds cells.now × Held (nodes cells.now) g }
    ensures { result ≡ said_of (equality_reply a b (equal_answer a b (nodes cells.now) (decode g))) }
{
    let n = node_count(cells);
    if n <= index(a) {
        return Err(Refusal::UnknownExpression);
    }
    if n <= index(b) {
        return Err(Refusal::UnknownExpression);
    }
    let left = u32::from(a);
    let right = u32::from(b);
    Ok(Said::Equality(left, right, equal_in(cells, g, left, right)))
}

// The options of the n keys in a body are 0 to 3.
fn options_known(body: &[u8], n: usize) -> bool
    requires { length body.now ≡ 4 * n }
    ensures { result ≡ each (λ k. leb (key_options (keys_in body.now) k) 3) n }
{
    (0..n).all(|k| field(body, 4 * k + 2) <= 3)
}

// The expressions of the n keys in a body are below a count.
fn exprs_below(body: &[u8], n: usize, count: usize) -> bool
    requires { length body.now ≡ 4 * n }
    ensures { result ≡ each (λ k. ltb (key_expr (keys_in body.now) k) count) n }
{
    (0..n).all(|k| index(field(body, 4 * k)) < count)
}

// The n keys in a body as a list of keys that is lent: their count, then expression and options of each.
fn lent_keys(body: &[u8], n: usize) -> [u16; 33]
    requires { (length body.now ≡ 4 * n) × (n ≤ 16) }
    ensures { (length result ≡ 33) × (take (1 + 2 * n) result ≡ lent_keys (keys_in body.now)) }
{
    let mut numbers = [0u16; 33];
    numbers[0] = n as u16;
    for k in 0..n {
        numbers[1 + 2 * k] = field(body, 4 * k);
        numbers[2 + 2 * k] = field(body, 4 * k + 2);
    }
    numbers
}

// Adds the ordering of the n keys in a body and reduces: 12, 1, 5.
fn add_ordering_in(cells: &[u32; 11265], list: Orderings, body: &[u8], n: usize) -> Listed
    requires { (Holds cells.now × HeldList list) × ((length body.now ≡ 4 * n) × (n ≤ 16)) }
    ensures { result ≡ listed_of (add_ordering (keys_in body.now) (nodes cells.now) (orderings_in list)) }
{
    if !options_known(body, n) {
        return Listed {
            done: Err(Refusal::BadNumber),
            list,
        };
    }
    let count = node_count(cells);
    if !exprs_below(body, n, count) {
        return Listed {
            done: Err(Refusal::UnknownExpression),
            list,
        };
    }
    let numbers = lent_keys(body, n);
    let end = 1 + 2 * n;
    add_in(list, &numbers[..end])
}

// An answer beside what is held as before.
fn kept(said: Result<Said, Refusal>, h: Holding) -> Stepped
    ensures { result ≡ record { said = said; holding = h } }
{
    Stepped { said, holding: h }
}

// What is held with the group that a call handed back.
fn with_group(h: Holding, change: Changed) -> Stepped
    ensures { result ≡ record { said = told change.answer; holding = record { group = change.group; list = h.list } } }
{
    Stepped {
        said: quiet(change.answer),
        holding: Holding {
            group: change.group,
            list: h.list,
        },
    }
}

// What is held with the orderings that a call handed back.
fn with_list(h: Holding, listed: Listed) -> Stepped
    ensures { result ≡ record { said = told listed.done; holding = record { group = h.group; list = listed.list } } }
{
    Stepped {
        said: quiet(listed.done),
        holding: Holding {
            group: h.group,
            list: listed.list,
        },
    }
}

// One record: what is answered, and what is held afterwards.
pub fn step(
    cells: &mut [u32; 11265],
    h: Holding,
    bytes: &[u8],
    item: Result<Item, Refusal>,
) -> Stepped
    requires { Fit cells.old h × (item ≡ item_of (read_record bytes.now)) }
    ensures { (x : Record) → read_record bytes.now ≡ Some x → Went cells.old h x cells.new result }
{
    let group = h.group;
    let list = h.list;
    match item {
        Ok(Item::Column(name, index)) => kept(add_column_in(cells, name, index), h),
        Ok(Item::Literal(value)) => kept(add_literal_in(cells, value), h),
        Ok(Item::Operation(label, n)) => {
            kept(add_operation_in(cells, label, body_of(bytes), n), h)
        }
        Ok(Item::EqualPair(a, b)) => with_group(h, equal_pair_in(cells, group, a, b)),
        Ok(Item::Constant(e, flavour, value)) => {
            with_group(h, say_constant_in(cells, group, e, flavour, value))
        }
        Ok(Item::NormalFormOf(e)) => kept(normal_form_in(cells, group, e), h),
        Ok(Item::EqualityOf(a, b)) => kept(equality_in(cells, group, a, b), h),
        Ok(Item::OneOrdering(n)) => with_list(h, add_ordering_in(cells, list, body_of(bytes), n)),
        Err(why) => kept(Err(why), h),
    }
}
