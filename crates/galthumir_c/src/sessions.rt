// The calls on records, and the session, exported to C.
ghost use Rattle.std.specs.Prelude.{◌≡◌};
ghost use Rattle.records.specs.Record.{read_record, item_of};
ghost use Rattle.group_records.specs.GroupRecord.{group_read};
ghost use Rattle.transcript.specs.Session.{session};
ghost use Rattle.group_states.specs.Groups.{stored_group};
ghost use Rattle.answers.specs.Answers.{on_first, item_in, written_in, chosen_in};

// Reads the record at the start of some bytes. Refusal: 9.
#[unsafe(no_mangle)]
pub extern "C" fn galthumir_read_record(bytes: &[u8], answer: &mut [usize; 4]) -> u32
    ensures { (result, answer.new) ≡ item_in answer.old (item_of (read_record bytes.now)) }
{
    galthumir::sessions::galthumir_read_record(bytes, answer)
}

// Makes a group from a record of kind 16. Refusals: 9, 12, 11, 1, 4.
#[unsafe(no_mangle)]
pub extern "C" fn galthumir_read_group(
    arena: &[u32; 11265],
    bytes: &[u8],
    made: &mut [u32; 451],
) -> u32
    ensures { (result, made.new) ≡ stored_group made.old (group_read arena.now bytes.now) }
{
    galthumir::sessions::galthumir_read_group(arena, bytes, made)
}

// Of two group records the one that a join of kind 4 to 9 keeps. Refusals: 12, 9.
#[unsafe(no_mangle)]
pub extern "C" fn galthumir_chosen<'a>(
    kind: u32,
    left: &'a [u8],
    right: &'a [u8],
    answer: &mut [usize; 2],
) -> u32
    ensures { (result, answer.new) ≡ chosen_in answer.old kind left.now right.now }
{
    galthumir::sessions::galthumir_chosen(kind, left, right, answer)
}

// Runs a session. Refusal: 8.
#[unsafe(no_mangle)]
pub extern "C" fn galthumir_session(input: &[u8], output: &mut [u8], answer: &mut [usize; 1]) -> u32
    ensures { ((result, answer.new), output.new) ≡ on_first (written_in answer.old) (session input.now output.old) }
{
    galthumir::sessions::galthumir_session(input, output, answer)
}
