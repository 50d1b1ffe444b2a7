// What the statements of a region do with the bits of some columns, by words.
ghost use Rattle.std.specs.Prelude.{◌≡◌, ◌⊎◌, ◌&&◌, ◌||◌, ◌<◌, ◌≤◌, ℕ, true, length, nat_eq, slice_index};
ghost use Rattle.bit_rows.specs.Words.{has_bit};
ghost use Rattle.flow_graph.specs.Points.{point_count};
ghost use Rattle.gen_kill.specs.Selections.{column_boundary, column_count};
ghost use Rattle.flow_regions.specs.code.Effects.{ArePut, AreTold, has_effect};
ghost use Rattle.flow_regions.specs.code.Lists.{AreLow};
ghost use Rattle.flow_regions.specs.code.Touches.{HaveTouches};

use crate::lists::Lists;
use gen_kill::Problem;

/// What a statement does with a bit.
#[derive(Clone, Copy)]
pub enum Does {
    Generates,
    Kills,
}

/// A column, and the bit by which it stands in words.
#[derive(Clone, Copy)]
pub struct Member {
    pub column: u32,
    pub bit: u32,
}

// Whether the statement at a point does it with a column's bit.
fn has(problem: &Problem<'_, '_>, does: Does, point: u32, column: u32) -> bool
    requires point { point < point_count problem.now.program }
    requires column { column < column_count problem.now }
    ensures { result ≡ has_effect problem.now does point column }
{
    match does {
        Does::Generates => problem.gens(point, column),
        Does::Kills => problem.kills(point, column),
    }
}

// The word with a bit more, if it is wanted.
fn with_bit(word: u64, bit: u32, wanted: bool) -> u64
    requires { bit < 64 }
    ensures { (b : ℕ) → b < 64 → has_bit result b ≡ (has_bit word b || (wanted && nat_eq b bit)) }
{
    if wanted { word | (1 << bit) } else { word }
}

// Puts a bit into the word of a place, if there is such a place and the bit is wanted.
fn put_bit(words: &mut [u64], place: u32, bit: u32, wanted: bool)
    requires { bit < 64 }
    ensures count { length words.new ≡ length words.old }
    ensures bits { (y b : ℕ) → b < 64 → place < length words.old → has_bit (slice_index words.new y) b
        ≡ (has_bit (slice_index words.old y) b || (nat_eq y place && (wanted && nat_eq b bit))) }
    ensures past { length words.old ≤ place → words.new ≡ words.old }
{
    let place = place as usize;
    if place < words.len() {
        words[place] = with_bit(words[place], bit, wanted);
    }
}

// Puts a column's bit into the words of those points that do it.
fn put_column(
    problem: &Problem<'_, '_>,
    does: Does,
    listed: &[u32],
    member: Member,
    places: &[u32],
    words: &mut [u64],
)
    requires column { member.column < column_count problem.now }
    requires bit { member.bit < 64 }
    requires low { AreLow (point_count problem.now.program) listed.now }
    requires places { length places.now ≡ point_count problem.now.program }
    ensures count { length words.new ≡ length words.old }
    ensures put { ArePut problem.now does member.column member.bit listed.now (length listed.now) places.now words.old words.new }
{
    for point in listed {
        let wanted = has(problem, does, *point, member.column);
        put_bit(words, places[*point as usize], member.bit, wanted);
    }
}

/// Puts the bits of columns into the words of those points inside that do it. The conditions: the words are blank, there are 64 columns at most, all
/// points that touch them are inside, and these have their places.
pub fn put_words(
    problem: &Problem<'_, '_>,
    does: Does,
    touches: &Lists,
    columns: &[u32],
    places: &[u32],
    words: &mut [u64],
)
    requires touches { HaveTouches problem.now columns.now touches.now }
    requires columns { AreLow (column_count problem.now) columns.now }
    requires few { length columns.now ≤ 64 }
    requires places { length places.now ≡ point_count problem.now.program }
    requires blank { (y : ℕ) → slice_index words.old y ≡ 0 }
    ensures count { length words.new ≡ length words.old }
    ensures told { AreTold problem.now does columns.now (length columns.now) places.now (length words.old) words.new }
{
    for number in 0..columns.len() {
        let member = Member {
            column: columns[number],
            bit: number as u32,
        };
        let listed = touches.of(member.column);
        put_column(problem, does, listed, member, places, words);
    }
}

/// The word of those columns of which the transfer has the bit at its boundary.
pub fn boundary_of(problem: &Problem<'_, '_>, columns: &[u32]) -> u64
    requires columns { AreLow (column_count problem.now) columns.now }
    requires few { length columns.now ≤ 64 }
    ensures { (k : ℕ) → k < length columns.now → has_bit result k ≡ column_boundary problem.now (slice_index columns.now k) }
{
    let mut word = 0;
    for number in 0..columns.len() {
        word = with_bit(word, number as u32, problem.in_boundary(columns[number]));
    }
    word
}
