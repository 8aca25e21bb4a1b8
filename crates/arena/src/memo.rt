// The memo of a walk that adds what it makes of each node: for a node's number, the number of what was made of it and
// one more, or 0 where nothing is noted.
ghost use Rattle.std.specs.Prelude.{◌≡◌, ℕ, ◌<◌, Ok};
ghost use Rattle.arena.specs.Inner.{noted, is_refused};

use crate::Refusal;

// Notes an answer for node e.
pub fn note(memo: &mut [u32; 1024], e: usize, answer: Result<u32, Refusal>)
    requires { (e < 1024) × ((i : ℕ) → answer ≡ Ok i → i < 1024) }
    ensures { memo.new ≡ noted memo.old e answer }
{
    match answer {
        Ok(i) => {
            memo[e] = i + 1;
        }
        Err(_) => {}
    }
}

// The walk found no room.
pub fn refused(answer: Result<u32, Refusal>) -> bool
    ensures { result ≡ is_refused answer }
{
    answer.is_err()
}
