// Answers as numbers: what each says, written into the caller's array, and the number that is returned. Here stand the
// answers on orderings, dependency maps, records and sessions; those on nodes and groups stand in the crate
// group_answers.
#![tactic(auto)]

ghost use Rattle.std.specs.Prelude.{[], ◌∷◌, ◌≡◌, ◌<◌, Ok};
ghost use Rattle.answers.specs.Answers.{bit, maybe, options_in, partial_in, output_in, enumerated_in, item_numbers, item_in, written_in, given_from};

use arena::Refusal;
use arena::cells::wide;
use dependencies::Key;
use dependency_orderings::Enumerated;
use orderings::Ordering;
use records::Item;
use states::NONE;
use states::orders::put_ordering;

// 1 for true and 0 for false.
#[tactic(auto, unfolding(crate::specs::Answers::bit))]
pub fn bit_of(b: bool) -> u32
    ensures { result ≡ bit b }
{
    u32::from(b)
}

// A number that may be missing: 1 and the number, or 0 and 0.
#[tactic(auto, unfolding(crate::specs::Answers::maybe))]
pub fn maybe_of(number: Option<u32>) -> [u32; 2]
    ensures { result ≡ maybe number }
{
    match number {
        Some(n) => [1, n],
        None => [0, 0],
    }
}

// Writes one number.
pub fn put_1(answer: &mut [u32; 1], a: u32)
    ensures { answer.new ≡ a ∷ [] }
{
    *answer = [a];
}

// Writes two numbers.
pub fn put_2(answer: &mut [u32; 2], a: u32, b: u32)
    ensures { answer.new ≡ a ∷ b ∷ [] }
{
    *answer = [a, b];
}

// Writes two sizes.
pub fn put_sizes(answer: &mut [usize; 2], a: usize, b: usize)
    ensures { answer.new ≡ a ∷ b ∷ [] }
{
    let sizes = [a, b];
    *answer = sizes;
}

// Writes one ordering.
pub fn put_one(ordering: Ordering, answer: &mut [u16; 17])
    requires { ordering.size < 65536 }
    ensures { answer.new ≡ ordering.size ∷ ordering.keys }
{
    put_ordering(ordering, answer, 0);
}

// The options of an expression: whether there are some, and these.
#[tactic(auto, unfolding(crate::specs::Answers::options_in, states::specs::Cells::told))]
pub fn put_options(are: Result<Option<u32>, Refusal>, answer: &mut [u32; 2]) -> u32
    ensures { (result, answer.new) ≡ options_in answer.old are }
{
    match are {
        Ok(options) => {
            *answer = maybe_of(options);
            0
        }
        Err(why) => u32::from(why),
    }
}

// Whether an expression is partly constant: 1 for yes, 0 for no.
#[tactic(auto, unfolding(crate::specs::Answers::partial_in, states::specs::Cells::told))]
pub fn put_partial(is: Result<bool, Refusal>, answer: &mut [u32; 1]) -> u32
    ensures { (result, answer.new) ≡ partial_in answer.old is }
{
    match is {
        Ok(partly) => {
            put_1(answer, bit_of(partly));
            0
        }
        Err(why) => u32::from(why),
    }
}

// The joined ordering: how many keys, and these.
#[tactic(auto, unfolding(crate::specs::Answers::output_in, states::specs::Cells::told, states::specs::Orders::ordering_cells))]
pub fn put_output(output: Result<Ordering, Refusal>, answer: &mut [u16; 17]) -> u32
    requires { (o : Ordering) → output ≡ Ok o → o.size < 65536 }
    ensures { (result, answer.new) ≡ output_in answer.old output }
{
    match output {
        Ok(ordering) => {
            put_one(ordering, answer);
            0
        }
        Err(why) => u32::from(why),
    }
}

// An enumeration: how many orderings, and how many places of the output they take.
#[tactic(auto, unfolding(crate::specs::Answers::enumerated_in, states::specs::Cells::told))]
pub fn put_enumerated(enumerated: Result<Enumerated, Refusal>, answer: &mut [usize; 2]) -> u32
    ensures { (result, answer.new) ≡ enumerated_in answer.old enumerated }
{
    match enumerated {
        Ok(done) => {
            put_sizes(answer, done.count, done.used);
            0
        }
        Err(why) => u32::from(why),
    }
}

// The numbers of a record: its kind and up to three more.
#[tactic(auto, unfolding(crate::specs::Answers::item_numbers))]
fn numbers_of(item: Item) -> [usize; 4]
    ensures { result ≡ item_numbers item }
{
    match item {
        Item::Column(name, index) => [1, usize::from(name), usize::from(index), 0],
        Item::Literal(value) => [2, wide(value), 0, 0],
        Item::Operation(label, children) => [3, wide(label), children, 0],
        Item::EqualPair(left, right) => [4, usize::from(left), usize::from(right), 0],
        Item::Constant(expr, flavour, value) => {
            [5, usize::from(expr), usize::from(flavour), wide(value)]
        }
        Item::NormalFormOf(expr) => [6, usize::from(expr), 0, 0],
        Item::EqualityOf(left, right) => [7, usize::from(left), usize::from(right), 0],
        Item::OneOrdering(keys) => [8, keys, 0, 0],
    }
}

// A record that was read: its kind and up to three numbers.
#[tactic(auto, unfolding(crate::specs::Answers::item_in, states::specs::Cells::told))]
pub fn put_record(item: Result<Item, Refusal>, answer: &mut [usize; 4]) -> u32
    ensures { (result, answer.new) ≡ item_in answer.old item }
{
    match item {
        Ok(item) => {
            *answer = numbers_of(item);
            0
        }
        Err(why) => u32::from(why),
    }
}

// A session: how many bytes were written.
#[tactic(auto, unfolding(crate::specs::Answers::written_in, states::specs::Cells::told))]
pub fn put_written(written: Result<usize, Refusal>, answer: &mut [usize; 1]) -> u32
    ensures { (result, answer.new) ≡ written_in answer.old written }
{
    match written {
        Ok(bytes) => {
            *answer = [bytes];
            0
        }
        Err(why) => u32::from(why),
    }
}

// A key that is given as two numbers, or none.
#[tactic(auto, unfolding(crate::specs::Answers::given_from))]
pub fn given_from(expr: u32, options: u32) -> Option<Key>
    ensures { result ≡ given_from expr options }
{
    (expr != NONE).then_some(Key { expr, options })
}
