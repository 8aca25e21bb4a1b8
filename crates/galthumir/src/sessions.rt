// The calls on records, and the session.
ghost use Rattle.std.specs.Prelude.{◌≡◌};
ghost use Rattle.records.specs.Record.{read_record, item_of};
ghost use Rattle.group_records.specs.GroupRecord.{group_read};
ghost use Rattle.transcript.specs.Session.{session};
ghost use Rattle.group_states.specs.Groups.{stored_group};
ghost use Rattle.answers.specs.Answers.{on_first, item_in, written_in, side, chosen_in};

use answers::{put_record, put_sizes, put_written};
use arena::cells::wide;
use group_states::groups::store_group;
use states::numbers::short;

// Reads the record at the start of some bytes. Refusal: 9.
pub fn galthumir_read_record(bytes: &[u8], answer: &mut [usize; 4]) -> u32
    ensures { (result, answer.new) ≡ item_in answer.old (item_of (read_record bytes.now)) }
{
    put_record(records::read_record(bytes), answer)
}

// Makes a group from a record of kind 16. Refusals: 9, 12, 11, 1, 4.
pub fn galthumir_read_group(arena: &[u32; 11265], bytes: &[u8], made: &mut [u32; 451]) -> u32
    ensures { (result, made.new) ≡ stored_group made.old (group_read arena.now bytes.now) }
{
    let changed = group_records::read_group(arena, bytes);
    store_group(changed, made)
}

// The side that a join of kind 4 to 9 keeps: 0 left, 1 right.
#[tactic(auto, unfolding(answers::specs::Answers::side))]
fn side_of(kind: u32) -> usize
    ensures { result ≡ side kind }
{
    usize::from(7 <= kind)
}

// Of two group records the one that a join of kind 4 to 9 keeps. Refusals: 12, 9.
pub fn galthumir_chosen<'a>(
    kind: u32,
    left: &'a [u8],
    right: &'a [u8],
    answer: &mut [usize; 2],
) -> u32
    ensures { (result, answer.new) ≡ chosen_in answer.old kind left.now right.now }
{
    if 9 < kind {
        return 12;
    }
    let small = short(wide(kind));
    if let Err(why) = records::chosen_number(small, left, right) {
        return u32::from(why);
    }
    let part = records::chosen(small, left, right);
    put_sizes(answer, side_of(kind), part.len());
    0
}

// Runs a session. Refusal: 8.
pub fn galthumir_session(input: &[u8], output: &mut [u8], answer: &mut [usize; 1]) -> u32
    ensures { ((result, answer.new), output.new) ≡ on_first (written_in answer.old) (session input.now output.old) }
{
    let written = transcript::session(input, output);
    put_written(written, answer)
}
