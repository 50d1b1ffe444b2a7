// Names that are meant by others.

ghost use Rattle.std.specs.Prelude.{◌≡◌, ◌≤◌, length};
ghost use Rattle.tac_faults.specs.Hints.Near.{is_near as near, is_same_but_for_capitals as same_letters, is_slip as slip, is_swapped as swapped};

/// Whether the first two bytes are swapped, and the others are the same.
fn is_swapped(name: &[u8], other: &[u8]) -> bool
    ensures { swapped name.now other.now ≡ result }
{
    match (name, other) {
        ([a, b, rest @ ..], [c, d, others @ ..]) => *a == *d && *b == *c && rest == others,
        _ => false,
    }
}

/// Whether there is one slip between words that begin differently.
fn is_slip(name: &[u8], other: &[u8]) -> bool
    ensures { slip name.now other.now ≡ result }
{
    match (name.split_first(), other.split_first()) {
        (None, None) => false,
        (None, Some((_, others))) => others.is_empty(),
        (Some((_, rest)), None) => rest.is_empty(),
        (Some((_, rest)), Some((_, others))) => {
            rest == other || name == others || rest == others || is_swapped(name, other)
        }
    }
}

/// Whether there is one slip between the words: one byte more, fewer or other, or two neighbours swapped.
pub fn is_near(name: &[u8], other: &[u8]) -> bool
    ensures { near name.now other.now ≡ result }
{
    let mut at = 0;
    while at < name.len() && at < other.len() && name[at] == other[at] {
        at += 1;
    }
    is_slip(&name[at..], &other[at..])
}

/// Whether the words have the same letters, but for capitals.
pub fn is_same_but_for_capitals(name: &[u8], other: &[u8]) -> bool
    ensures { same_letters name.now other.now ≡ result }
{
    name.eq_ignore_ascii_case(other)
}
