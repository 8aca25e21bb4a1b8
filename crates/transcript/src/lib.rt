// The session (document 01, "Records and the session program") as one function, from bytes to bytes.
//
// It opens a group of limit 256, takes the records one after the other and answers each with a line or with nothing;
// a malformed record stops it, and another refusal doesn't. Its last line counts classes, members and orderings. What
// one record does is in the crate session_steps.
#![tactic(auto)]

pub mod text;

ghost use Rattle.std.specs.Prelude.{◌≡◌, ◌≤◌, [], ◌++◌, length, take, drop};
ghost use Rattle.arena.specs.Layout.{encode};
ghost use Rattle.session_steps.specs.State.{start};
ghost use Rattle.transcript.specs.Session.{read_all, script_text, session_text, session as session_of};
ghost use Rattle.lines.specs.Writing.{Put};

use arena::Refusal;
use records::kinds::record_size;
use records::read_record;
use session_steps::holding::opened;
use session_steps::steps::step;
use text::{put_end, put_refusal, put_said};

// Output of this many bytes suffices for every session: two bytes for each byte of input, and 24 for the last lines.
pub const ENOUGH: usize = 131096;

// The cells of an empty arena.
fn no_nodes() -> [u32; 11265]
    ensures { result ≡ encode [] }
{
    [0u32; 11265]
}

// Writes the text of a session of at most 65,536 bytes from the start of the output on, and answers its length.
fn run(input: &[u8], output: &mut [u8]) -> usize
    requires { (length input.now ≤ 65536) × (131096 ≤ length output.old) }
    ensures { Put output.old 0 (script_text 1 start (read_all input.now)) output.new result }
{
    let mut cells = no_nodes();
    let mut state = opened();
    let mut done = 0;
    let mut at = 0;
    let mut k = 1;
    // A while: the length of each record decides where the next one starts.
    while at < input.len() {
        let Ok(item) = read_record(&input[at..]) else {
            done = put_refusal(output, done, k, 9);
            return put_end(output, done, state);
        };
        let next = step(&mut cells, state, &input[at..], Ok(item));
        done = put_said(output, done, k, next.said);
        state = next.holding;
        at += record_size(&input[at..]);
        k += 1;
    }
    put_end(output, done, state)
}

// Writes the text of a session from the start of the output on, and answers its length.
fn transcribe(input: &[u8], output: &mut [u8]) -> usize
    requires { 131096 ≤ length output.old }
    ensures { Put output.old 0 (session_text input.now) output.new result }
{
    if 65536 < input.len() {
        let done = put_refusal(output, 0, 0, 9);
        return put_end(output, done, opened());
    }
    run(input, output)
}

// Copies the first n bytes.
fn copy(from: &[u8], n: usize, to: &mut [u8])
    requires { (n ≤ length from.now) × (n ≤ length to.old) }
    ensures { to.new ≡ take n from.now ++ drop n to.old }
{
    to[..n].copy_from_slice(&from[..n]);
}

// Runs a session: reads records from the input and writes its lines to the output. Refusal: 8 where the output is too
// short, and then nothing is written. Output of ENOUGH bytes is never too short.
pub fn session(input: &[u8], output: &mut [u8]) -> Result<usize, Refusal>
    ensures { (result, output.new) ≡ session_of input.now output.old }
{
    let mut text = [0u8; 131096];
    let n = transcribe(input, &mut text);
    if output.len() < n {
        return Err(Refusal::OutputShort);
    }
    copy(&text, n, output);
    Ok(n)
}
