// The texts of a set's bits, run by run: bits that lie side by side are one range of bytes.

ghost use Rattle.flow_team.specs.Tables.{facts_of};
ghost use Rattle.std.specs.Prelude.{◌≡◌, ℕ, Bool, true, false, ◌+◌, ◌-◌, ◌<◌, ◌≤◌, ◌||◌, codes, filter, length, map};
ghost use Rattle.std.specs.List.{range_with_len};
ghost use Rattle.bit_rows.specs.Words.{has_bit};
ghost use Rattle.text_pieces.specs.code.Lists.{after, some_stand, text_at};
ghost use Rattle.flow_texts.specs.code.Members.{Wrote, chosen};
ghost use Rattle.flow_texts.specs.code.Runs.{IsRunBefore};
ghost use Rattle.text_pieces.specs.Pieces.{CanWrite, Writes, outlet};
ghost use Rattle.flow_texts.specs.Tables.{listed};

use bit_rows::words_for;
use flow_team::Table;
use text_pieces::{Pieces, Sink, TextBlock};

/// Bits that lie side by side in a set and are not written yet, and whether other texts stand already.
#[derive(Clone, Copy)]
struct Run {
    first: u32,
    end: u32,
    others: bool,
}

/// The first place from `from` on at which a word is 1; 64 where there is none.
pub fn next_one(word: u64, from: u32) -> u32
    requires { from ≤ 64 }
    ensures ordered { from ≤ result }
    ensures within { result ≤ 64 }
    ensures before { (k : ℕ) → from ≤ k → k < result → has_bit word k ≡ false }
    ensures one { result < 64 → has_bit word result ≡ true }
{
    if from == 64 {
        return 64;
    }
    let rest = word >> from;
    (from + rest.trailing_zeros()).min(64)
}

/// The first place from `from` on at which a word is 0; 64 where there is none.
fn next_zero(word: u64, from: u32) -> u32
    requires { from ≤ 64 }
    ensures ordered { from ≤ result }
    ensures within { result ≤ 64 }
    ensures before { (k : ℕ) → from ≤ k → k < result → has_bit word k ≡ true }
    ensures zero { result < 64 → has_bit word result ≡ false }
{
    next_one(!word, from)
}

/// Writes the texts of a run, and answers whether any stands now.
fn write_run<K: Sink>(out: &mut Pieces<'_, K>, texts: &TextBlock, run: Run) -> bool
    requires ready { CanWrite K.Sink out.old }
    requires ordered { run.first ≤ run.end }
    requires end { run.end ≤ length texts.now.texts }
    ensures writes { Writes K.Sink out.old out.new
        (after texts.now.between run.others (map (text_at texts.now.texts) (range_with_len run.first (run.end - run.first)))) }
    ensures any { result ≡ (run.others || some_stand (range_with_len run.first (run.end - run.first))) }
{
    if run.first == run.end {
        return run.others;
    }
    out.write(texts.range(run.first as usize, run.end as usize, run.others));
    true
}

/// Goes on with a run where the next one begins at its end; else writes it, and goes on with the next one.
fn with_run<K: Sink>(
    out: &mut Pieces<'_, K>,
    texts: &TextBlock,
    run: Run,
    first: u32,
    end: u32,
) -> Run
    ghost member: { ℕ → Bool }
    requires ready { CanWrite K.Sink out.old }
    requires before { IsRunBefore member first run.first run.end }
    requires inside { (n : ℕ) → first ≤ n → n < end → member n ≡ true }
    requires ordered { first ≤ end }
    requires end { end ≤ length texts.now.texts }
    ensures later { run.first ≤ result.first }
    ensures after { IsRunBefore member end result.first result.end }
    ensures wrote { Wrote texts.now.between (chosen texts.now.texts member) run.others run.first (result.first - run.first)
        (outlet K.Sink out.old) (outlet K.Sink out.new) result.others }
{
    if run.end == first {
        return Run {
            first: run.first,
            end,
            others: run.others,
        };
    }
    let others = write_run(out, texts, run);
    Run { first, end, others }
}

/// Goes over a word, whose first bits are those from `first` on and before `end`: writes the runs that end there, and answers
/// the last one, which may go on.
fn write_word<K: Sink>(
    out: &mut Pieces<'_, K>,
    texts: &TextBlock,
    word: u64,
    first: u32,
    end: u32,
    run: Run,
) -> Run
    ghost member: { ℕ → Bool }
    requires ready { CanWrite K.Sink out.old }
    requires word { (k : ℕ) → first + k < end → has_bit word k ≡ member (first + k) }
    requires ordered { first ≤ end }
    requires width { end ≤ first + 64 }
    requires end { end ≤ length texts.now.texts }
    requires before { IsRunBefore member first run.first run.end }
    ensures later { run.first ≤ result.first }
    ensures after { IsRunBefore member end result.first result.end }
    ensures wrote { Wrote texts.now.between (chosen texts.now.texts member) run.others run.first (result.first - run.first)
        (outlet K.Sink out.old) (outlet K.Sink out.new) result.others }
{
    let width = end - first;
    let mut last = run;
    let mut place = next_one(word, 0);
    while place < width {
        let stop = next_zero(word, place).min(width);
        last = with_run(out, texts, last, first + place, first + stop);
        place = next_one(word, stop);
    }
    last
}

/// Goes over a point's set word by word.
fn write_words<K: Sink>(
    out: &mut Pieces<'_, K>,
    texts: &TextBlock,
    table: &Table,
    point: u32,
    bits: u32,
) -> bool
    ghost member: { ℕ → Bool }
    requires ready { CanWrite K.Sink out.old }
    requires point { point < length table.now.paths }
    requires bits { bits ≤ length texts.now.texts }
    requires member { (bit : ℕ) → (facts_of table.now).contains point bit ≡ member bit }
    ensures { Wrote texts.now.between (chosen texts.now.texts member) false 0 bits
        (outlet K.Sink out.old) (outlet K.Sink out.new) result }
{
    let mut run = Run {
        first: 0,
        end: 0,
        others: false,
    };
    for at in 0..words_for(bits) {
        let first = 64 * at;
        let end = first + (bits - first).min(64);
        run = write_word(out, texts, table.word(point, at), first, end, run);
    }
    write_run(out, texts, run)
}

/// Writes the texts of those of a point's bits that lie before `bits`, in their order and with the separator between them, and
/// answers whether there are any.
///
/// The conditions: the table has the point, and each of these bits has its text.
pub fn write_members<K: Sink>(
    out: &mut Pieces<'_, K>,
    texts: &TextBlock,
    table: &Table,
    point: u32,
    bits: u32,
) -> bool
    requires ready { CanWrite K.Sink out.old }
    requires point { point < length table.now.paths }
    requires bits { bits ≤ length texts.now.texts }
    ensures { Wrote texts.now.between (chosen texts.now.texts ((facts_of table.now).contains point)) false 0 bits
        (outlet K.Sink out.old) (outlet K.Sink out.new) result }
{
    write_words(out, texts, table, point, bits)
}

/// Writes the texts of those of a point's bits that lie before `bits`, in their order and with `, ` between them, or `-` where there
/// are none.
///
/// The conditions: `, ` is what stands before each text, the table has the point, and each of these bits has its text.
pub fn write_set<K: Sink>(
    out: &mut Pieces<'_, K>,
    texts: &TextBlock,
    table: &Table,
    point: u32,
    bits: u32,
)
    requires ready { CanWrite K.Sink out.old }
    requires commas { texts.now.between ≡ codes ", " }
    requires point { point < length table.now.paths }
    requires bits { bits ≤ length texts.now.texts }
    ensures { Writes K.Sink out.old out.new
        (listed (map (text_at texts.now.texts) (filter ((facts_of table.now).contains point) (range_with_len 0 bits)))) }
{
    if write_members(out, texts, table, point, bits) {
        return;
    }
    out.write(b"-");
}
