// Numbers of one width as numbers of another.
ghost use Rattle.std.specs.Prelude.{◌≡◌, ◌<◌};

// A number of 16 bits, widened.
pub fn widened(x: u16) -> usize
    ensures { result ≡ x }
{
    usize::from(x)
}

// A number that fits 32 bits.
pub fn narrow(x: usize) -> u32
    requires { x < 4294967296 }
    ensures { result ≡ x }
{
    x as u32
}

// A number that fits 16 bits.
pub fn short(x: usize) -> u16
    requires { x < 65536 }
    ensures { result ≡ x }
{
    x as u16
}
