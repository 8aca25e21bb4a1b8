// Records (document 01, "Records and the session program"): a body length, a kind, the body, little-endian.
//
// A record of a session has one of the kinds 1 to 8; kind 16 is a group. The functions of this file are the public
// calls and ask nothing of their caller.
#![tactic(auto)]

pub mod fields;
pub mod kinds;

ghost use Rattle.std.specs.Prelude.{◌≡◌};
ghost use Rattle.arena.specs.Refusals.{outcome};
ghost use Rattle.records.specs.Record.{read_record, item_of};
ghost use Rattle.records.specs.Chosen.{chosen_part, chosen_number};

use arena::Refusal;
use kinds::{is_whole, read_body};

// What a record says: a column's name and index, a literal's value, an operation's label and how many children follow,
// an equal pair, a constant's expression, flavour and value, the expression of a normal form, those of an equality
// question, or how many keys of an ordering follow.
#[derive(Clone, Copy, Debug, PartialEq, Eq)]
pub enum Item {
    Column(u16, u16),
    Literal(u32),
    Operation(u32, usize),
    EqualPair(u16, u16),
    Constant(u16, u16, u32),
    NormalFormOf(u16),
    EqualityOf(u16, u16),
    OneOrdering(usize),
}

// Reads the record at the start of some bytes. A cut header or body, a length that its kind doesn't have and a kind
// other than 1 to 8 are malformed: 9.
pub fn read_record(bytes: &[u8]) -> Result<Item, Refusal>
    ensures { result ≡ item_of (read_record bytes.now) }
{
    if is_whole(bytes) {
        read_body(bytes)
    } else {
        Err(Refusal::Malformed)
    }
}

// For join kinds 4 to 9: the record of the side that is kept, as a part of the caller's own bytes, header and body and
// nothing after. The empty part stands for a refusal, and `chosen_number` tells which.
// Two functions and no `Result`: two named theorems, `records-chosen` and `records-chosen_number`, speak of the part and of the number.
pub fn chosen<'a>(kind: u16, left: &'a [u8], right: &'a [u8]) -> &'a [u8]
    ensures { result.now ≡ chosen_part kind left.now right.now }
{
    match kind {
        4..=6 => kinds::group_part(left),
        7..=9 => kinds::group_part(right),
        _ => &left[..0],
    }
}

// What an empty part of `chosen` stands for. Refusals: 12, a kind under 4 or over 9; 9, a chosen record whose header is
// cut, whose kind isn't 16 or whose length passes its bytes.
pub fn chosen_number(kind: u16, left: &[u8], right: &[u8]) -> Result<(), Refusal>
    ensures { result ≡ outcome (chosen_number kind left.now right.now) }
{
    match kind {
        4..=6 => kinds::group_number(left),
        7..=9 => kinds::group_number(right),
        _ => Err(Refusal::BadNumber),
    }
}
