// How posted words are put into rows.
ghost use Rattle.std.specs.Prelude.{◌≡◌, ℕ, ◌+◌, ◌*◌, ◌<◌, ◌≤◌, length, slice_index};
ghost use Rattle.std.specs.Mem.Slots.{slots_items, slots_len, IsFull};
ghost use Rattle.bit_rows.specs.RowTable.{IsUniform, blank_table};
ghost use Rattle.slice_board.specs.Boards.{words_for};
ghost use Rattle.slice_board.specs.code.Closing.{RowsLieWithin, RowLiesWithin, IsPutIn, ArePutIn};

use atomic_table::Closed;
use bit_rows::{Rows, words_for};
use std::alloc::Global;

// How many words are copied at once.
const BLOCK: u32 = 64;

// Words of the table, the first at `from`, and each further one `apart` words behind the one before.
fn block_of(closed: &Closed<(), Global>, from: usize, apart: u32, count: usize) -> [u64; 64]
    requires full { IsFull closed.now.words }
    requires room { (k : ℕ) → k < count → from + k * apart < slots_len closed.now.words }
    requires block { count ≤ 64 }
    ensures { (k : ℕ) → k < count
        → slice_index result k ≡ slice_index (slots_items closed.now.words) (from + k * apart) }
{
    let mut block = [0; 64];
    for k in 0..count {
        block[k] = closed.word(from + k * apart as usize);
    }
    block
}

// Puts a point's words into its row. The first words of all points stand in the table from `from` on,
// and behind them their second words, and so on.
fn put_row(closed: &Closed<(), Global>, rows: &mut Rows, point: u32, from: usize)
    requires full { IsFull closed.now.words }
    requires uniform { IsUniform rows.old }
    requires point { point < length rows.old.flags }
    requires lowest { rows.old.lo ≡ 0 }
    requires room { (k : ℕ) → k < words_for rows.old.hi
        → from + point + k * length rows.old.flags < slots_len closed.now.words }
    requires within { RowLiesWithin rows.old (slots_items closed.now.words) (from + point) }
    ensures { IsPutIn (slots_items closed.now.words) (from + point) point (words_for rows.old.hi) rows.old rows.new }
{
    let apart = rows.points();
    let words = words_for(rows.hi());
    let mut first = 0;
    while first < words {
        let count = (words - first).min(BLOCK) as usize;
        let start = from + point as usize + first as usize * apart as usize;
        let block = block_of(closed, start, apart, count);
        rows.or_words(point, first, &block[..count]);
        first += count as u32;
    }
}

/// Puts the words of all points, which stand in the table from `from` on, into blank rows.
pub(crate) fn put_rows(closed: &Closed<(), Global>, rows: &mut Rows, from: usize)
    requires full { IsFull closed.now.words }
    requires blank { rows.old ≡ blank_table rows.old.flags 0 rows.old.hi }
    requires room { from + length rows.old.flags * words_for rows.old.hi ≤ slots_len closed.now.words }
    requires within { RowsLieWithin rows.old (slots_items closed.now.words) from }
    ensures { ArePutIn (slots_items closed.now.words) from (length rows.old.flags) rows.old rows.new }
{
    'points: for point in 0..rows.points() {
        put_row(closed, rows, point, from);
    }
}
