// Rows as what takes solved words.
ghost use Rattle.std.specs.Prelude.{◌≡◌, ◌*◌, length};
ghost use Rattle.flow_graph.specs.Points.{point_count};
ghost use Rattle.flow_rows.specs.code.Rows.{AreWithin, IsInWords, IsPut, TellsBelow};

use bit_rows::Rows;
use gen_kill::Problem;
use gk_solve::{SliceWords, TakeWords};

/// Rows that get the words of a slice as these are solved.
#[derive(Drop)]
pub(crate) struct Filling {
    pub(crate) rows: Rows,
}

// Puts the words of a slice that were solved last into rows.
fn put_words(slice: &SliceWords, rows: &mut Rows)
    requires points { length rows.now.flags ≡ slice.now.points }
    requires range { (slice.now.lo ≡ rows.now.lo) × (slice.now.hi ≡ rows.now.hi) }
    requires within { AreWithin slice.now }
    ensures { IsPut (IsInWords slice.now) rows.old rows.new }
{
    // Its contract tells that the rows are uniform.
    let _ = rows.points();
    for point in 0..slice.points() {
        let (first, words) = slice.words_at(point);
        rows.or_words(point, first, words);
    }
}

impl TakeWords for Filling {
    ghost is_ready = { λ filling form lo hi.
        (length filling.rows.flags ≡ point_count form.program) × (filling.rows.lo ≡ lo) × (filling.rows.hi ≡ hi) };

    ghost has = { λ _ filling form lo hi word. TellsBelow form (64 * word) lo hi filling.rows };

    fn take_words(&mut self, _problem: &Problem<'_, '_>, slice: &SliceWords) {
        put_words(slice, &mut self.rows);
    }
}
