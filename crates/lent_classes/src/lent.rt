// A list of classes that is lent as numbers: for each class its flavour, its value, its member count and its members.
ghost use Rattle.std.specs.Prelude.{true, ◌&&◌, [], ◌∷◌, ◌++◌, ◌≡◌, ◌≤◌, ◌<◌, ◌+◌, eqb, length, get_or, drop};
ghost use Rattle.std.proofs.Math.Seq.{paste};
ghost use Rattle.arena.specs.Layout.{decode as nodes};
ghost use Rattle.arena.specs.Inner.{Holds};
ghost use Rattle.arena.specs.Refusals.{outcome};
ghost use Rattle.classes.specs.Steps.{fits};
ghost use Rattle.classes.specs.Layout.{encode, decode};
ghost use Rattle.classes.specs.Inner.{Coded};
ghost use Rattle.lent_classes.specs.Lent.{flavour_lent, value_lent, size_lent, member_lent, next_class, known_at, flavours_known, whole, fresh_lent, apart_at, members_apart, uniform_lent, literals_uniform, below_at, members_below, class_lent, classes_lent};
ghost use Rattle.lent_classes.specs.Check.{new_number};
ghost use Rattle.lent_classes.specs.Inner.{At};

use arena::Refusal;
use arena::cells::{node_count, wide};
use arena::checking::lawful_arena;
use classes::Group;
use classes::building::empty;
use group_checks::checking::{known_flavour, member_fits};

// The number at a place; past the end, 0.
pub fn number_at(numbers: &[u32], i: usize) -> u32
    ensures { result ≡ get_or numbers.now i 0 }
{
    numbers.get(i).copied().unwrap_or(0)
}

// How many members the class at a place has.
fn size_at(numbers: &[u32], at: usize) -> usize
    requires { at < length numbers.now }
    ensures { (result ≡ size_lent numbers.now at) × (result < 4294967296) }
{
    wide(number_at(numbers, at + 2))
}

// Every flavour and value is in its set.
fn flavours_known(numbers: &[u32]) -> bool
    ensures { result ≡ flavours_known numbers.now }
{
    let n = numbers.len();
    let mut at = 0;
    // The size of a class decides where the next one begins.
    while at < n {
        if !known_flavour(number_at(numbers, at), number_at(numbers, at + 1)) {
            return false;
        }
        at += 3 + size_at(numbers, at);
    }
    true
}

// No count runs past what is lent.
fn is_whole(numbers: &[u32]) -> bool
    ensures { result ≡ whole numbers.now }
{
    let n = numbers.len();
    let mut at = 0;
    // The size of a class decides where the next one begins.
    while at < n {
        at += 3 + size_at(numbers, at);
        if n < at {
            return false;
        }
    }
    true
}

// Member k of the class at a place does not stand before it there.
fn fresh_lent(numbers: &[u32], at: usize, k: usize) -> bool
    requires { At numbers.now at × (k < size_lent numbers.now at) }
    ensures { result ≡ fresh_lent numbers.now at k }
{
    (0..k).all(|i| numbers[at + 3 + i] != numbers[at + 3 + k])
}

// No member of the class at a place stands twice.
fn apart_at(numbers: &[u32], at: usize) -> bool
    requires { At numbers.now at }
    ensures { result ≡ apart_at numbers.now at }
{
    (0..size_at(numbers, at)).all(|k| fresh_lent(numbers, at, k))
}

// No class has a member twice.
fn members_apart(numbers: &[u32]) -> bool
    requires { whole numbers.now ≡ true }
    ensures { result ≡ members_apart numbers.now }
{
    let n = numbers.len();
    let mut at = 0;
    // The size of a class decides where the next one begins.
    while at < n {
        if !apart_at(numbers, at) {
            return false;
        }
        at += 3 + size_at(numbers, at);
    }
    true
}

// A literal among the members of the class at a place makes it uniform.
fn uniform_at(cells: &[u32; 11265], numbers: &[u32], at: usize) -> bool
    requires { Holds cells.now × At numbers.now at }
    ensures { result ≡ uniform_lent (nodes cells.now) numbers.now at }
{
    let flavour = number_at(numbers, at);
    (0..size_at(numbers, at)).all(|k| member_fits(cells, numbers[at + 3 + k], flavour))
}

// A literal's class is uniform.
fn literals_uniform(cells: &[u32; 11265], numbers: &[u32]) -> bool
    requires { Holds cells.now × (whole numbers.now ≡ true) }
    ensures { result ≡ literals_uniform (nodes cells.now) numbers.now }
{
    let n = numbers.len();
    let mut at = 0;
    // The size of a class decides where the next one begins.
    while at < n {
        if !uniform_at(cells, numbers, at) {
            return false;
        }
        at += 3 + size_at(numbers, at);
    }
    true
}

// The members of the class at a place are below m.
fn below_at(numbers: &[u32], at: usize, m: usize) -> bool
    requires { At numbers.now at }
    ensures { result ≡ below_at m numbers.now at }
{
    (0..size_at(numbers, at)).all(|k| wide(numbers[at + 3 + k]) < m)
}

// Every member is below m.
fn members_below(numbers: &[u32], m: usize) -> bool
    requires { whole numbers.now ≡ true }
    ensures { result ≡ members_below m numbers.now }
{
    let n = numbers.len();
    let mut at = 0;
    // The size of a class decides where the next one begins.
    while at < n {
        if !below_at(numbers, at, m) {
            return false;
        }
        at += 3 + size_at(numbers, at);
    }
    true
}

// The list has at most 64 classes and 256 members.
fn list_fits(numbers: &[u32]) -> bool
    requires { whole numbers.now ≡ true }
    ensures { result ≡ fits 256 (classes_lent numbers.now) }
{
    let n = numbers.len();
    let mut count = 0usize;
    let mut used = 0;
    let mut at = 0;
    // The size of a class decides where the next one begins.
    while at < n {
        let size = size_at(numbers, at);
        if 64 <= count || 256 < used + size {
            return false;
        }
        count += 1;
        used += size;
        at += 3 + size;
    }
    true
}

// The check of a list of classes. Refusals: 12, 11, 1, 4, whichever is first.
pub fn new_number(cells: &[u32; 11265], numbers: &[u32]) -> Result<(), Refusal>
    ensures { result ≡ outcome (new_number cells.now numbers.now) }
{
    if !flavours_known(numbers) {
        return Err(Refusal::BadNumber);
    }
    if !lawful_arena(cells) {
        return Err(Refusal::BadState);
    }
    if !is_whole(numbers) {
        return Err(Refusal::BadState);
    }
    if !members_apart(numbers) {
        return Err(Refusal::BadState);
    }
    if !literals_uniform(cells, numbers) {
        return Err(Refusal::BadState);
    }
    if !members_below(numbers, node_count(cells)) {
        return Err(Refusal::UnknownExpression);
    }
    if !list_fits(numbers) {
        return Err(Refusal::GroupFull);
    }
    Ok(())
}

// A table with n numbers of a list, from a place on, after its first `used` places.
fn copy_numbers(to: [u32; 256], used: usize, numbers: &[u32], start: usize, n: usize) -> [u32; 256]
    requires { (used + n ≤ 256) × (start + n ≤ length numbers.now) }
    ensures { result ≡ paste to used (drop start numbers.now) n }
{
    let mut out = to;
    out[used..used + n].copy_from_slice(&numbers[start..start + n]);
    out
}

// A group with the class at a place of the list at its end.
fn add_lent(out: Group, numbers: &[u32], at: usize) -> Group
    requires { (Coded out × ((out.count < 64) × (out.used + size_lent numbers.now at ≤ 256))) × (At numbers.now at × (known_at numbers.now at ≡ true)) }
    ensures { result ≡ encode out.limit (decode out ++ (class_lent numbers.now at ∷ [])) }
{
    let size = size_at(numbers, at);
    let flavour = number_at(numbers, at);
    let value = number_at(numbers, at + 1);
    let end = out.count;
    let used = out.used;
    let to = out.members;
    let members = copy_numbers(to, used, numbers, at + 3, size);
    let mut next = out;
    next.members = members;
    next.sizes[end] = size;
    next.flavours[end] = flavour;
    next.values[end] = value;
    next.count = end + 1;
    next.used = used + size;
    next
}

// The list of classes in a group's tables.
pub fn lent_classes(numbers: &[u32]) -> Group
    requires { (flavours_known numbers.now ≡ true) × ((whole numbers.now ≡ true) × (fits 256 (classes_lent numbers.now) ≡ true)) }
    ensures { result ≡ encode 256 (classes_lent numbers.now) }
{
    let n = numbers.len();
    let mut out = empty(256);
    let mut at = 0;
    // The size of a class decides where the next one begins.
    while at < n {
        let next = at + 3 + size_at(numbers, at);
        out = add_lent(out, numbers, at);
        at = next;
    }
    out
}
