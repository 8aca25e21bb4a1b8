// A group's record (document 01, "Records and the session program"): a record of kind 16, read against an arena.
//
// The function of this file is the public call and asks nothing of its caller. What a record is stands in the crate
// records.
#![tactic(auto)]

pub mod group;

ghost use Rattle.std.specs.Prelude.{◌≡◌};
ghost use Rattle.group_records.specs.GroupRecord.{group_read};

use classes::Changed;
use group::read_group_in;

// Reads a group's record against an arena into a group of limit 256. Refusals: 9, 12, 11, 1, 4, with a group of limit 0,
// which is none.
pub fn read_group(cells: &[u32; 11265], bytes: &[u8]) -> Changed
    ensures { result ≡ group_read cells.now bytes.now }
{
    read_group_in(cells, bytes)
}
