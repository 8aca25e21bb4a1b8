// A group's record, read against an arena.
ghost use Rattle.std.specs.Prelude.{true, not, ◌&&◌, ◌||◌, ◌≡◌, ◌≤◌, ◌<◌, ◌+◌, ◌*◌, ltb, leb, length, get_or, take};
ghost use Rattle.std.proofs.Math.Seq.{paste};
ghost use Rattle.laws.specs.Tests.{each};
ghost use Rattle.arena.specs.Node.{node_at};
ghost use Rattle.arena.specs.Layout.{decode as nodes};
ghost use Rattle.arena.specs.Inner.{Holds};
ghost use Rattle.classes.specs.Layout.{padded, fresh, is_literal};
ghost use Rattle.records.specs.Fields.{field as field_of, fields};
ghost use Rattle.records.specs.Record.{AllBelow};
ghost use Rattle.group_records.specs.GroupRecord.{body_given, flavours_known, classes_filled, members_given, literals_uniform, group_read, group_of};
ghost use Rattle.group_records.specs.Inner.{is_given, given_of, Shaped, Listed, columns_of, built_of};

use arena::Refusal;
use arena::adding::all_below;
use arena::cells::{node_count, wide};
use arena::checking::lawful_arena;
use classes::building::empty;
use classes::refusing::no_group;
use classes::{Changed, Group};
use group_checks::checking::{known_flavour, member_fits};
use records::fields::{field, index, wide_field};
use records::kinds::{body_of, is_group_record};

// How many members the class at a place of a body has.
fn member_count(body: &[u8], at: usize) -> usize
    requires { at + 8 ≤ length body.now }
    ensures { (result ≡ field_of body.now (at + 6)) × (result < 65536) }
{
    index(field(body, at + 6))
}

// The class at a place of a body doesn't run past its end.
fn class_fits(body: &[u8], at: usize) -> bool
    requires { at ≤ length body.now }
    ensures { result ≡ (leb (at + 8) (length body.now) && leb (at + 8 + 2 * field_of body.now (at + 6)) (length body.now)) }
{
    let left = body.len() - at;
    8 <= left && 2 * member_count(body, at) <= left - 8
}

// The length of a body is what its counts say.
fn is_shaped(body: &[u8]) -> bool
    requires { length body.now ≤ 65535 }
    ensures { result ≡ is_given (body_given body.now) }
{
    if body.len() < 2 {
        return false;
    }
    let n = index(field(body, 0));
    let mut at = 2;
    for _j in 0..n {
        if !class_fits(body, at) {
            return false;
        }
        at += 8 + 2 * member_count(body, at);
    }
    at == body.len()
}

// How many classes a body has.
fn class_count(body: &[u8]) -> usize
    requires { Shaped body.now }
    ensures { result ≡ length (given_of body.now) }
{
    index(field(body, 0))
}

// Every flavour and value is in its set.
fn flavours_known(body: &[u8]) -> bool
    requires { Shaped body.now }
    ensures { result ≡ flavours_known (given_of body.now) }
{
    let n = class_count(body);
    let mut at = 2;
    for _j in 0..n {
        if !known_flavour(u32::from(field(body, at)), wide_field(body, at + 2)) {
            return false;
        }
        at += 8 + 2 * member_count(body, at);
    }
    true
}

// Every class has members.
fn classes_filled(body: &[u8]) -> bool
    requires { Shaped body.now }
    ensures { result ≡ classes_filled (given_of body.now) }
{
    let n = class_count(body);
    let mut at = 2;
    for _j in 0..n {
        if member_count(body, at) == 0 {
            return false;
        }
        at += 8 + 2 * member_count(body, at);
    }
    true
}

// The m members from a place of a body on may stand in a class of a flavour: a literal only in a uniform one.
fn members_fit(cells: &[u32; 11265], body: &[u8], at: usize, m: usize, flavour: u32) -> bool
    requires { Holds cells.now × (at + 2 * m ≤ length body.now) }
    ensures { result ≡ each (λ k. not (ltb (get_or (fields body.now at m) k 0) (length (nodes cells.now)) && is_literal (node_at (nodes cells.now) (get_or (fields body.now at m) k 0))) || leb 2 flavour) m }
{
    (0..m).all(|k| member_fits(cells, u32::from(field(body, at + 2 * k)), flavour))
}

// A literal's class is uniform.
fn literals_uniform(cells: &[u32; 11265], body: &[u8]) -> bool
    requires { Holds cells.now × Shaped body.now }
    ensures { result ≡ literals_uniform (nodes cells.now) (given_of body.now) }
{
    let n = class_count(body);
    let mut at = 2;
    for _j in 0..n {
        let m = member_count(body, at);
        if !members_fit(cells, body, at + 8, m, u32::from(field(body, at))) {
            return false;
        }
        at += 8 + 2 * m;
    }
    true
}

// The member at a place of a body.
fn member_at(body: &[u8], at: usize) -> u32
    requires { at + 1 < length body.now }
    ensures { (result ≡ field_of body.now at) × (result < 65536) }
{
    u32::from(field(body, at))
}

// Copies the m members from a place of a body on to the end of a list.
fn copy_members(list: &mut [u32; 32768], used: usize, body: &[u8], at: usize, m: usize)
    requires { ((length list.old ≡ 32768) × (used + m ≤ 32768)) × (at + 2 * m ≤ length body.now) }
    ensures { (list.new ≡ paste list.old used (fields body.now at m) m) × AllBelow 65536 (fields body.now at m) }
{
    for k in 0..m {
        list[used + k] = member_at(body, at + 2 * k);
    }
}

// Copies the members of all classes into a list, one after the other, and answers how many there are.
fn copy_all(list: &mut [u32; 32768], body: &[u8]) -> usize
    requires { Shaped body.now × (length list.old ≡ 32768) }
    ensures { ((length list.new ≡ 32768) × (result ≤ 32768)) × ((take result list.new ≡ members_given (given_of body.now)) × AllBelow 65536 (members_given (given_of body.now))) }
{
    let n = class_count(body);
    let mut used = 0;
    let mut at = 2;
    for _j in 0..n {
        let m = member_count(body, at);
        copy_members(list, used, body, at + 8, m);
        used += m;
        at += 8 + 2 * m;
    }
    used
}

// No number stands twice.
fn numbers_apart(numbers: &[u32]) -> bool
    requires { AllBelow 65536 numbers.now }
    ensures { result ≡ each (λ k. fresh numbers.now k) (length numbers.now) }
{
    let mut seen = [0u8; 65536];
    for x in numbers {
        let e = wide(*x);
        if seen[e] != 0 {
            return false;
        }
        seen[e] = 1;
    }
    true
}

// The columns of a group of at most 64 classes, without its members.
fn columns(body: &[u8]) -> Group
    requires { Shaped body.now × ((length (given_of body.now) ≤ 64) × (flavours_known (given_of body.now) ≡ true)) }
    ensures { result ≡ columns_of (given_of body.now) }
{
    let n = class_count(body);
    let mut group = empty(256);
    let mut at = 2;
    for j in 0..n {
        let m = member_count(body, at);
        group.sizes[j] = m;
        group.flavours[j] = u32::from(field(body, at));
        group.values[j] = wide_field(body, at + 2);
        at += 8 + 2 * m;
    }
    group.count = n;
    group
}

// A table of members that starts with these numbers.
fn member_table(numbers: &[u32]) -> [u32; 256]
    requires { length numbers.now ≤ 256 }
    ensures { result ≡ padded 256 numbers.now }
{
    let mut members = [0u32; 256];
    members[..numbers.len()].copy_from_slice(numbers);
    members
}

// The group of a body with the members of its classes, if there are not too many.
fn build(body: &[u8], numbers: &[u32]) -> Changed
    requires { Shaped body.now × ((flavours_known (given_of body.now) ≡ true) × (numbers.now ≡ members_given (given_of body.now))) }
    ensures { result ≡ built_of (given_of body.now) }
{
    if 64 < class_count(body) || 256 < numbers.len() {
        return no_group(Refusal::GroupFull);
    }
    let mut group = columns(body);
    let members = member_table(numbers);
    group.members = members;
    group.used = numbers.len();
    Changed {
        answer: Ok(true),
        group,
    }
}

// The group of a body whose members are listed, in the order 11, 1, 4.
fn listed_group(cells: &[u32; 11265], body: &[u8], numbers: &[u32]) -> Changed
    requires { Listed cells.now body.now numbers.now }
    ensures { result ≡ group_of cells.now (body_given body.now) }
{
    if !numbers_apart(numbers) || !literals_uniform(cells, body) {
        return no_group(Refusal::BadState);
    }
    if !all_below(numbers, node_count(cells)) {
        return no_group(Refusal::UnknownExpression);
    }
    build(body, numbers)
}

// The group of a body whose shape is checked, in the order 12, 11, 1, 4.
fn read_classes(cells: &[u32; 11265], body: &[u8]) -> Changed
    requires { Shaped body.now }
    ensures { result ≡ group_of cells.now (body_given body.now) }
{
    if !flavours_known(body) {
        return no_group(Refusal::BadNumber);
    }
    if !lawful_arena(cells) || !classes_filled(body) {
        return no_group(Refusal::BadState);
    }
    let mut list = [0u32; 32768];
    let n = copy_all(&mut list, body);
    listed_group(cells, body, &list[..n])
}

// The group of a record: 9 where it is malformed.
pub fn read_group_in(cells: &[u32; 11265], bytes: &[u8]) -> Changed
    ensures { result ≡ group_read cells.now bytes.now }
{
    if !is_group_record(bytes) {
        return no_group(Refusal::Malformed);
    }
    let body = body_of(bytes);
    if !is_shaped(body) {
        return no_group(Refusal::Malformed);
    }
    read_classes(cells, body)
}
