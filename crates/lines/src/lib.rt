// Lines of text, written into lent bytes: a word, then numbers in decimal, each after a space, then a line end. Each
// function asks for room, writes from a place on and answers the place after what it wrote.
// Written by hand: the library's `write!` into a lent slice promises nothing of the bytes, and the contracts here say each byte.
#![tactic(auto)]

ghost use Rattle.std.specs.Prelude.{◌∷◌, [], ◌++◌};
ghost use Rattle.lines.specs.Text.{decimal, spaced, line};
ghost use Rattle.lines.specs.Writing.{Put, RoomFor};

// Writes one byte at a place, and answers the place after it.
pub fn put_byte(out: &mut [u8], at: usize, byte: u8) -> usize
    requires { RoomFor out.old at (byte ∷ []) }
    ensures { Put out.old at (byte ∷ []) out.new result }
{
    out[at] = byte;
    at + 1
}

// Writes a number in decimal.
fn put_decimal(out: &mut [u8], at: usize, x: usize) -> usize
    requires { RoomFor out.old at (decimal x) }
    ensures { Put out.old at (decimal x) out.new result }
{
    let last = 48 + ((x % 10) as u8);
    if x < 10 {
        return put_byte(out, at, last);
    }
    let next = put_decimal(out, at, x / 10);
    put_byte(out, next, last)
}

// Writes a number after a space.
fn put_number(out: &mut [u8], at: usize, x: usize) -> usize
    requires { RoomFor out.old at (32 ∷ decimal x) }
    ensures { Put out.old at (32 ∷ decimal x) out.new result }
{
    let next = put_byte(out, at, 32);
    put_decimal(out, next, x)
}

// Writes a line of one letter and two numbers.
pub fn put_two(out: &mut [u8], at: usize, letter: u8, a: usize, b: usize) -> usize
    requires { RoomFor out.old at (line (letter ∷ []) (a ∷ b ∷ [])) }
    ensures { Put out.old at (line (letter ∷ []) (a ∷ b ∷ [])) out.new result }
{
    let one = put_byte(out, at, letter);
    let two = put_number(out, one, a);
    let three = put_number(out, two, b);
    put_byte(out, three, 10)
}

// Writes three numbers and a line end.
pub fn put_three(out: &mut [u8], at: usize, a: usize, b: usize, c: usize) -> usize
    requires { RoomFor out.old at (spaced (a ∷ b ∷ c ∷ []) ++ (10 ∷ [])) }
    ensures { Put out.old at (spaced (a ∷ b ∷ c ∷ []) ++ (10 ∷ [])) out.new result }
{
    let one = put_number(out, at, a);
    let two = put_number(out, one, b);
    let past = put_number(out, two, c);
    put_byte(out, past, 10)
}
