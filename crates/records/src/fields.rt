// Numbers in bytes, little-endian.
ghost use Rattle.std.specs.Prelude.{◌≡◌, ◌<◌, ◌+◌, length};
ghost use Rattle.records.specs.Fields.{field as field_of, wide_field};

// The 16-bit number at a place.
#[tactic(auto, unfolding(crate::specs::Fields::field))]
pub fn field(bytes: &[u8], at: usize) -> u16
    requires { at + 1 < length bytes.now }
    ensures { result ≡ field_of bytes.now at }
{
    u16::from_le_bytes([bytes[at], bytes[at + 1]])
}

// The 32-bit number at a place.
#[tactic(auto, unfolding(crate::specs::Fields::wide_field, crate::specs::Fields::field))]
pub fn wide_field(bytes: &[u8], at: usize) -> u32
    requires { at + 3 < length bytes.now }
    ensures { result ≡ wide_field bytes.now at }
{
    u32::from_le_bytes([bytes[at], bytes[at + 1], bytes[at + 2], bytes[at + 3]])
}

// A 16-bit number as an index.
pub fn index(x: u16) -> usize
    ensures { (result ≡ x) × (result < 65536) }
{
    usize::from(x)
}
