// Answers as numbers: what the calls on nodes and groups say, normal forms and projections among it, written into the
// caller's array, and the number that is returned.
#![tactic(auto)]

ghost use Rattle.std.specs.Prelude.{[], ◌∷◌, ◌≡◌, ◌<◌, Ok};
ghost use Rattle.group_states.specs.Inner.{FitsIfDone};
ghost use Rattle.sort_keys.specs.declared.Sorted.{Sorted};
ghost use Rattle.group_answers.specs.Answers.{added_in, node_numbers, read_in, child_in, class_numbers, class_in, changed_in, answer_in, constant_in, key_in, sorted_in, projected_in};

use answers::{bit_of, maybe_of, put_one};
use arena::cells::wide;
use arena::{Read, Refusal};
use classes::{Changed, Constant};
use group_checks::ClassIs;
use group_states::groups::store_group;
use orderings::Ordering;
use sort_keys::{SortKey, Sorted};
use states::{COLUMN, LITERAL, OPERATION};

// An addition: the node's number.
#[tactic(auto, unfolding(crate::specs::Answers::added_in, states::specs::Cells::told))]
pub fn put_added(added: Result<u32, Refusal>, answer: &mut [u32; 1]) -> u32
    ensures { (result, answer.new) ≡ added_in answer.old added }
{
    match added {
        Ok(number) => {
            *answer = [number];
            0
        }
        Err(why) => u32::from(why),
    }
}

// The numbers of a node: its kind and two more.
#[tactic(auto, unfolding(crate::specs::Answers::node_numbers))]
fn numbers_of(read: Read) -> [u32; 3]
    ensures { result ≡ node_numbers read }
{
    match read {
        Read::Column(name, index) => [COLUMN, u32::from(name), u32::from(index)],
        Read::Literal(value) => [LITERAL, value, 0],
        Read::Operation(label, children) => [OPERATION, label, children],
    }
}

// A node that was read: its kind and two numbers.
#[tactic(auto, unfolding(crate::specs::Answers::read_in, states::specs::Cells::told))]
pub fn put_read(read: Result<Read, Refusal>, answer: &mut [u32; 3]) -> u32
    ensures { (result, answer.new) ≡ read_in answer.old read }
{
    match read {
        Ok(node) => {
            *answer = numbers_of(node);
            0
        }
        Err(why) => u32::from(why),
    }
}

// A child that was read: whether it is there, and its number.
#[tactic(auto, unfolding(crate::specs::Answers::child_in, states::specs::Cells::told))]
pub fn put_child(child: Result<Option<u32>, Refusal>, answer: &mut [u32; 2]) -> u32
    ensures { (result, answer.new) ≡ child_in answer.old child }
{
    match child {
        Ok(number) => {
            *answer = maybe_of(number);
            0
        }
        Err(why) => u32::from(why),
    }
}

// The numbers of a class: 1, its place, its size, its first member and its constant, or six times 0.
#[tactic(auto, unfolding(crate::specs::Answers::class_numbers))]
fn class_numbers_of(is: Option<ClassIs>) -> [usize; 6]
    ensures { result ≡ class_numbers is }
{
    match is {
        Some(class) => [
            1,
            class.place,
            class.size,
            wide(class.first),
            wide(class.constant.flavour()),
            wide(class.constant.value()),
        ],
        None => [0; 6],
    }
}

// The class of an expression: whether there is one, its place, its size, its first member and its constant.
#[tactic(auto, unfolding(crate::specs::Answers::class_in, states::specs::Cells::told))]
pub fn put_class_is(is: Result<Option<ClassIs>, Refusal>, answer: &mut [usize; 6]) -> u32
    ensures { (result, answer.new) ≡ class_in answer.old is }
{
    match is {
        Ok(class) => {
            *answer = class_numbers_of(class);
            0
        }
        Err(why) => u32::from(why),
    }
}

// A call that changes a group: its answer, and the group in its cells.
#[tactic(auto, unfolding(crate::specs::Answers::changed_in, crate::specs::Answers::answer_in, states::specs::Cells::told))]
pub fn put_changed(changed: Changed, group: &mut [u32; 451], answer: &mut [u32; 1]) -> u32
    requires { FitsIfDone changed }
    ensures { ((result, answer.new), group.new) ≡ changed_in answer.old group.old changed }
{
    store_group(changed, group);
    put_answer(changed.answer, answer)
}

// The equality question: 1 for yes, 0 for no.
#[tactic(auto, unfolding(crate::specs::Answers::answer_in, states::specs::Cells::told))]
pub fn put_answer(said: Result<bool, Refusal>, answer: &mut [u32; 1]) -> u32
    ensures { (result, answer.new) ≡ answer_in answer.old said }
{
    match said {
        Ok(yes) => {
            *answer = [bit_of(yes)];
            0
        }
        Err(why) => u32::from(why),
    }
}

// The constant question: flavour and value.
#[tactic(auto, unfolding(crate::specs::Answers::constant_in, states::specs::Cells::told))]
pub fn put_constant(is: Result<Constant, Refusal>, answer: &mut [u32; 2]) -> u32
    ensures { (result, answer.new) ≡ constant_in answer.old is }
{
    match is {
        Ok(constant) => {
            *answer = [constant.flavour(), constant.value()];
            0
        }
        Err(why) => u32::from(why),
    }
}

// The normal form of a sort key: expression and options.
#[tactic(auto, unfolding(crate::specs::Answers::key_in, states::specs::Cells::told))]
pub fn put_key(key: Result<SortKey, Refusal>, answer: &mut [u32; 2]) -> u32
    ensures { (result, answer.new) ≡ key_in answer.old key }
{
    match key {
        Ok(key) => {
            *answer = [key.expr, key.options];
            0
        }
        Err(why) => u32::from(why),
    }
}

// The normal forms of sort keys: how many, and the keys.
#[tactic(auto, unfolding(crate::specs::Answers::sorted_in, states::specs::Cells::told))]
pub fn put_sorted(sorted: Result<Sorted, Refusal>, answer: &mut [u16; 17]) -> u32
    requires { (s : Sorted) → sorted ≡ Ok s → s.size < 65536 }
    ensures { (result, answer.new) ≡ sorted_in answer.old sorted }
{
    match sorted {
        Ok(sorted) => {
            let keys = sorted.keys;
            let size = sorted.size;
            put_one(Ordering { size, keys }, answer);
            0
        }
        Err(why) => u32::from(why),
    }
}

// The projection of an expression: whether there is one, and its number.
#[tactic(auto, unfolding(crate::specs::Answers::projected_in, states::specs::Cells::told))]
pub fn put_projected(projected: Result<Option<u32>, Refusal>, answer: &mut [u32; 2]) -> u32
    ensures { (result, answer.new) ≡ projected_in answer.old projected }
{
    match projected {
        Ok(number) => {
            *answer = maybe_of(number);
            0
        }
        Err(why) => u32::from(why),
    }
}
