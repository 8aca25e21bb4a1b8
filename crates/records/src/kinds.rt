// The header of a record, and the body by its kind.
ghost use Rattle.std.specs.Prelude.{true, ◌≡◌, ◌≤◌, length};
ghost use Rattle.arena.specs.Refusals.{outcome};
ghost use Rattle.records.specs.Fields.{field as field_of};
ghost use Rattle.records.specs.Record.{is_whole, record_size, body_of, column_in, literal_in, operation_in, equal_pair_in, constant_in, normal_form_in, equality_in, ordering_in, record_in, item_of};
ghost use Rattle.records.specs.Chosen.{is_group_record, group_part, number_of};

use crate::Item;
use crate::fields::{field, index, wide_field};
use arena::Refusal;

// The length of the body, as the header says it.
pub fn body_length(bytes: &[u8]) -> usize
    requires { 4 ≤ length bytes.now }
    ensures { result ≡ field_of bytes.now 0 }
{
    index(field(bytes, 0))
}

// How many bytes the record takes: 4 of the header, and the body.
pub fn record_size(bytes: &[u8]) -> usize
    requires { 4 ≤ length bytes.now }
    ensures { result ≡ record_size bytes.now }
{
    4 + body_length(bytes)
}

// The header is whole, and so is the body.
pub fn is_whole(bytes: &[u8]) -> bool
    ensures { result ≡ is_whole bytes.now }
{
    4 <= bytes.len() && body_length(bytes) <= bytes.len() - 4
}

// A column: name and index.
#[tactic(auto, unfolding(crate::specs::Record::item_of, crate::specs::Record::column_in))]
fn column(body: &[u8]) -> Result<Item, Refusal>
    ensures { result ≡ item_of (column_in body.now) }
{
    if body.len() == 4 {
        Ok(Item::Column(field(body, 0), field(body, 2)))
    } else {
        Err(Refusal::Malformed)
    }
}

// A literal: a 32-bit value.
#[tactic(auto, unfolding(crate::specs::Record::item_of, crate::specs::Record::literal_in))]
fn literal(body: &[u8]) -> Result<Item, Refusal>
    ensures { result ≡ item_of (literal_in body.now) }
{
    if body.len() == 4 {
        Ok(Item::Literal(wide_field(body, 0)))
    } else {
        Err(Refusal::Malformed)
    }
}

// An operation: a 32-bit label, then two bytes a child.
#[tactic(auto, unfolding(crate::specs::Record::item_of, crate::specs::Record::operation_in))]
fn operation(body: &[u8]) -> Result<Item, Refusal>
    ensures { result ≡ item_of (operation_in body.now) }
{
    let n = body.len();
    if 4 <= n && n % 2 == 0 {
        Ok(Item::Operation(wide_field(body, 0), (n - 4) / 2))
    } else {
        Err(Refusal::Malformed)
    }
}

// An equal pair.
#[tactic(auto, unfolding(crate::specs::Record::item_of, crate::specs::Record::equal_pair_in))]
fn equal_pair(body: &[u8]) -> Result<Item, Refusal>
    ensures { result ≡ item_of (equal_pair_in body.now) }
{
    if body.len() == 4 {
        Ok(Item::EqualPair(field(body, 0), field(body, 2)))
    } else {
        Err(Refusal::Malformed)
    }
}

// A constant: expression, flavour, a 32-bit value.
#[tactic(auto, unfolding(crate::specs::Record::item_of, crate::specs::Record::constant_in))]
fn constant(body: &[u8]) -> Result<Item, Refusal>
    ensures { result ≡ item_of (constant_in body.now) }
{
    if body.len() == 8 {
        Ok(Item::Constant(field(body, 0), field(body, 2), wide_field(body, 4)))
    } else {
        Err(Refusal::Malformed)
    }
}

// The expression of a normal form.
#[tactic(auto, unfolding(crate::specs::Record::item_of, crate::specs::Record::normal_form_in))]
fn normal_form(body: &[u8]) -> Result<Item, Refusal>
    ensures { result ≡ item_of (normal_form_in body.now) }
{
    if body.len() == 2 {
        Ok(Item::NormalFormOf(field(body, 0)))
    } else {
        Err(Refusal::Malformed)
    }
}

// The two expressions of an equality question.
#[tactic(auto, unfolding(crate::specs::Record::item_of, crate::specs::Record::equality_in))]
fn equality(body: &[u8]) -> Result<Item, Refusal>
    ensures { result ≡ item_of (equality_in body.now) }
{
    if body.len() == 4 {
        Ok(Item::EqualityOf(field(body, 0), field(body, 2)))
    } else {
        Err(Refusal::Malformed)
    }
}

// One ordering: 1 to 16 keys of four bytes.
#[tactic(auto, unfolding(crate::specs::Record::item_of, crate::specs::Record::ordering_in))]
fn ordering(body: &[u8]) -> Result<Item, Refusal>
    ensures { result ≡ item_of (ordering_in body.now) }
{
    let n = body.len();
    if 4 <= n && n <= 64 && n % 4 == 0 {
        Ok(Item::OneOrdering(n / 4))
    } else {
        Err(Refusal::Malformed)
    }
}

// A body by its kind: kinds 1 to 8, and no other.
fn read_kind(kind: u16, body: &[u8]) -> Result<Item, Refusal>
    ensures { result ≡ item_of (record_in kind body.now) }
{
    match kind {
        1 => column(body),
        2 => literal(body),
        3 => operation(body),
        4 => equal_pair(body),
        5 => constant(body),
        6 => normal_form(body),
        7 => equality(body),
        8 => ordering(body),
        0 | 9..=65535 => Err(Refusal::Malformed),
    }
}

// The body of a whole record.
pub fn body_of(bytes: &[u8]) -> &[u8]
    requires { is_whole bytes.now ≡ true }
    ensures { result.now ≡ body_of bytes.now }
{
    &bytes[4..record_size(bytes)]
}

// A whole record by its kind.
pub fn read_body(bytes: &[u8]) -> Result<Item, Refusal>
    requires { is_whole bytes.now ≡ true }
    ensures { result ≡ item_of (record_in (field_of bytes.now 2) (body_of bytes.now)) }
{
    let kind = field(bytes, 2);
    read_kind(kind, body_of(bytes))
}

// A group record by its header alone: whole, and of kind 16.
#[tactic(auto, unfolding(crate::specs::Chosen::is_group_record))]
pub fn is_group_record(bytes: &[u8]) -> bool
    ensures { result ≡ is_group_record bytes.now }
{
    is_whole(bytes) && field(bytes, 2) == 16
}

// The header and the body of a group record, nothing after; the empty part where it is none.
pub fn group_part(bytes: &[u8]) -> &[u8]
    ensures { result.now ≡ group_part bytes.now }
{
    if is_group_record(bytes) {
        &bytes[..record_size(bytes)]
    } else {
        &bytes[..0]
    }
}

// Whether the bytes start with a group record. Refusal: 9, for any other bytes.
pub fn group_number(bytes: &[u8]) -> Result<(), Refusal>
    ensures { result ≡ outcome (number_of (Some bytes.now)) }
{
    if is_group_record(bytes) {
        Ok(())
    } else {
        Err(Refusal::Malformed)
    }
}
