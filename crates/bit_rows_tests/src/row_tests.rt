ghost use Rattle.std.specs.Prelude.{◌≡◌, ◌≤◌, length, IfOk};

use bit_rows::{Cut, CutFault, OutOfMemory, Row, Rows};
use std::alloc::Global;
use std::process::Abort;

// Sets a bit, where it lies in the row's range.
fn put(row: &mut Row, b: u32) {
    if row.lo() <= b && b < row.hi() {
        row.set(b);
    }
}

fn has(row: &Row, b: u32) -> bool {
    row.lo() <= b && b < row.hi() && row.get(b)
}

fn with_bits(alloc: Global, lo: u32, hi: u32, bits: &[u32]) -> Result<Row, OutOfMemory>
    requires { lo ≤ hi }
{
    let mut row = Row::empty(alloc, lo, hi)?;
    for b in bits {
        put(&mut row, *b);
    }
    Ok(row)
}

fn united(ours: &mut Row, theirs: &Row) -> bool {
    ours.lo() == theirs.lo() && ours.hi() == theirs.hi() && ours.or_into(theirs)
}

fn reduced(ours: &mut Row, theirs: &Row) {
    if ours.lo() == theirs.lo() && ours.hi() == theirs.hi() {
        ours.minus(theirs);
    }
}

fn restricted(ours: &mut Row, theirs: &Row) {
    if ours.lo() == theirs.lo() && ours.hi() == theirs.hi() {
        ours.and(theirs);
    }
}

// The first four words of the universe.
fn words(row: &Row) -> [u64; 4] {
    [row.word(0), row.word(1), row.word(2), row.word(3)]
}

// The row, which is named, has these first four words. Tests compare by calls, since each comparison that prints what
// differs is costly to check.
fn check_words(rt: &impl Abort, name: &str, row: &Row, want: &[u64; 4]) {
    assert_eq!(rt; words(row), *want, "{name}");
}

// The bits of the row over `60..130` of which the tests are made.
fn some_bits(alloc: Global) -> Result<Row, OutOfMemory> {
    with_bits(alloc, 60, 130, &[63, 64, 129])
}

// The first bit of `60..130` that the row has and should not have, or the other way round.
fn wrong_bit(row: &Row) -> Option<u32> {
    for b in 60..130 {
        if has(row, b) != (b == 63 || b == 64 || b == 129) {
            return Some(b);
        }
    }
    None
}

fn check_bits(rt: &impl Abort, row: &Row) {
    let wrong = wrong_bit(row);
    assert!(rt; wrong.is_none(), "bit {wrong:?}");
}

#[test]
fn row_by_words(rt: HostRuntime) -> Result<(), OutOfMemory> {
    let row = some_bits(rt.alloc())?;
    check_words(&rt, "row", &row, &[9223372036854775808, 1, 2, 0]);
    check_bits(&rt, &row);
    Ok(())
}

#[test]
fn part_of_row(rt: HostRuntime) -> Result<(), OutOfMemory> {
    let row = some_bits(rt.alloc())?;
    assert!(rt; row.lo() == 60 && row.hi() == 130);
    let part = row.cut(rt.alloc(), 63, 65)?;
    check_words(&rt, "part", &part, &[9223372036854775808, 1, 0, 0]);
    Ok(())
}

#[test]
fn flipped_row_and_copy(rt: HostRuntime) -> Result<(), OutOfMemory> {
    let mut row = some_bits(rt.alloc())?;
    let copy = row.copy(rt.alloc())?;
    row.flip();
    check_words(
        &rt,
        "flipped",
        &row,
        &[8070450532247928832, 18446744073709551614, 1, 0],
    );
    check_words(&rt, "copy", &copy, &[9223372036854775808, 1, 2, 0]);
    Ok(())
}

#[test]
fn row_put_into_another(rt: HostRuntime) -> Result<(), OutOfMemory> {
    let row = some_bits(rt.alloc())?;
    let mut joined = Row::empty(rt.alloc(), 60, 130)?;
    assert!(rt; united(&mut joined, &row));
    assert!(rt; !united(&mut joined, &row));
    check_words(&rt, "joined", &joined, &[9223372036854775808, 1, 2, 0]);
    Ok(())
}

#[test]
fn full_row(rt: HostRuntime) -> Result<(), OutOfMemory> {
    let full = Row::full(rt.alloc(), 60, 130)?;
    check_words(
        &rt,
        "full",
        &full,
        &[17293822569102704640, 18446744073709551615, 3, 0],
    );
    Ok(())
}

// A bit that looks random.
fn drawn(seed: u64, b: u32) -> bool {
    let mixed = (u64::from(b) + 1).wrapping_mul(0x9e37_79b9_7f4a_7c15) ^ seed;
    mixed.wrapping_mul(0xbf58_476d_1ce4_e5b9) >> 63 == 1
}

fn drawn_row(alloc: Global, seed: u64, lo: u32, hi: u32) -> Result<Row, OutOfMemory>
    requires { lo ≤ hi }
{
    let mut row = Row::empty(alloc, lo, hi)?;
    for b in lo..hi {
        if drawn(seed, b) {
            put(&mut row, b);
        }
    }
    Ok(row)
}

// What is made of two rows.
#[derive(Clone, Copy, Debug)]
enum Operation {
    Union,
    Difference,
    Intersection,
    Complement,
}

use Operation::{Complement, Difference, Intersection, Union};

// Makes it of the first row.
fn apply(operation: Operation, ours: &mut Row, theirs: &Row) {
    match operation {
        Union => {
            united(ours, theirs);
        }
        Difference => reduced(ours, theirs),
        Intersection => restricted(ours, theirs),
        Complement => ours.flip(),
    }
}

// Whether a bit has to be in what is made, by whether it is in the one and in the other.
fn is_wanted(operation: Operation, ours: bool, theirs: bool) -> bool {
    match operation {
        Union => ours || theirs,
        Difference => ours && !theirs,
        Intersection => ours && theirs,
        Complement => !ours,
    }
}

// Whether a row has exactly the bits that are wanted of the drawn rows of its range.
fn is_made(row: &Row, operation: Operation) -> bool {
    for b in row.lo()..row.hi() {
        if has(row, b) != is_wanted(operation, drawn(1, b), drawn(7, b)) {
            return false;
        }
    }
    true
}

// Whether the operation on drawn rows over `lo..hi` is right at each bit.
fn is_right(alloc: Global, operation: Operation, lo: u32, hi: u32) -> Result<bool, OutOfMemory>
    requires { lo ≤ hi }
{
    let theirs = drawn_row(alloc, 7, lo, hi)?;
    let mut ours = drawn_row(alloc, 1, lo, hi)?;
    apply(operation, &mut ours, &theirs);
    Ok(is_made(&ours, operation))
}

// Whether one of the drawn rows over `lo..hi` has a bit that the other lacks.
fn is_gain(lo: u32, hi: u32) -> bool {
    for b in lo..hi {
        if drawn(7, b) && !drawn(1, b) {
            return true;
        }
    }
    false
}

// Whether the union of drawn rows over `lo..hi` tells that it changed, and then that it did not.
fn changes(alloc: Global, lo: u32, hi: u32) -> Result<(bool, bool), OutOfMemory>
    requires { lo ≤ hi }
{
    let theirs = drawn_row(alloc, 7, lo, hi)?;
    let mut ours = drawn_row(alloc, 1, lo, hi)?;
    Ok((united(&mut ours, &theirs), united(&mut ours, &theirs)))
}

const OPERATIONS: &[Operation] = &[Union, Difference, Intersection, Complement];

// Each operation on drawn rows over `lo..hi`.
fn check_range(rt: &impl Abort, alloc: Global, lo: u32, hi: u32) -> Result<(), OutOfMemory>
    requires { lo ≤ hi }
{
    for operation in OPERATIONS {
        let is_right = is_right(alloc, *operation, lo, hi)?;
        assert!(rt; is_right, "{lo}..{hi}: {operation:?}");
    }
    let changes = changes(alloc, lo, hi)?;
    assert!(rt; changes == (is_gain(lo, hi), false), "{lo}..{hi}");
    Ok(())
}

#[test]
fn every_width(rt: HostRuntime) -> Result<(), OutOfMemory> {
    for lo in [0, 1, 63, 64] {
        for width in 0..1101 {
            check_range(&rt, rt.alloc(), lo, lo + width)?;
        }
    }
    Ok(())
}

fn put_row(rows: &mut Rows, point: u32, row: &Row) -> bool {
    point < rows.points()
        && row.lo() == rows.lo()
        && row.hi() == rows.hi()
        && rows.or_row(point, row)
}

fn flip_row(rows: &mut Rows, point: u32) {
    if point < rows.points() {
        rows.flip_row(point);
    }
}

// Posts a word of the universe `0..128`.
fn post(rows: &mut Rows, point: u32, word: u32, mask: u64) -> bool {
    rows.lo() == 0
        && rows.hi() == 128
        && point < rows.points()
        && word < 2
        && rows.or_word(point, word, mask)
}

// The first three words of a point's row.
fn words_at(rows: &Rows, point: u32) -> [u64; 3] {
    if point < rows.points() {
        let row = rows.row(point);
        [row.word(0), row.word(1), row.word(2)]
    } else {
        [0; 3]
    }
}

fn check_words_at(rt: &impl Abort, rows: &Rows, point: u32, want: &[u64; 3]) {
    assert_eq!(rt; words_at(rows, point), *want, "point {point}");
}

// Rows of two points, the first of them flagged, over `0..128`.
fn two_rows(alloc: Global) -> Result<Rows, OutOfMemory>
    ensures { IfOk result (λ rows. length rows.flags ≡ 2) }
{
    let flags = vec![in alloc; true, false]?;
    Rows::blank(alloc, flags, 0, 128)
}

#[test]
fn blank_rows(rt: HostRuntime) -> Result<(), OutOfMemory> {
    let rows = two_rows(rt.alloc())?;
    assert_eq!(rt; (rows.points(), rows.lo(), rows.hi()), (2, 0, 128));
    assert!(rt; rows.flag(0) && !rows.flag(1));
    check_words_at(&rt, &rows, 1, &[0, 0, 0]);
    Ok(())
}

#[test]
fn rows_put_and_flipped(rt: HostRuntime) -> Result<(), OutOfMemory> {
    let mut rows = two_rows(rt.alloc())?;
    let row = with_bits(rt.alloc(), 0, 128, &[3, 127])?;
    assert!(rt; put_row(&mut rows, 1, &row));
    assert!(rt; !put_row(&mut rows, 1, &row));
    flip_row(&mut rows, 0);
    check_words_at(&rt, &rows, 1, &[8, 1 << 63, 0]);
    check_words_at(&rt, &rows, 0, &[u64::MAX, u64::MAX, 0]);
    Ok(())
}

#[test]
fn posted_words(rt: HostRuntime) -> Result<(), OutOfMemory> {
    let mut rows = two_rows(rt.alloc())?;
    assert!(rt; post(&mut rows, 1, 0, 12));
    assert!(rt; !post(&mut rows, 1, 0, 8));
    assert!(rt; !post(&mut rows, 1, 1, 0));
    assert!(rt; post(&mut rows, 0, 1, 5));
    check_words_at(&rt, &rows, 1, &[12, 0, 0]);
    check_words_at(&rt, &rows, 0, &[0, 5, 0]);
    Ok(())
}

// Posts words of the universe `0..128` from word `first` on.
fn post_words(rows: &mut Rows, point: u32, first: u32, masks: &[u64]) {
    if rows.lo() == 0
        && rows.hi() == 128
        && point < rows.points()
        && first < 2
        && masks.len() <= (2 - first) as usize
    {
        rows.or_words(point, first, masks);
    }
}

#[test]
fn words_posted_at_once(rt: HostRuntime) -> Result<(), OutOfMemory> {
    let mut rows = two_rows(rt.alloc())?;
    post_words(&mut rows, 1, 0, &[1 << 63, 9]);
    post_words(&mut rows, 1, 1, &[6]);
    check_words_at(&rt, &rows, 1, &[1 << 63, 15, 0]);
    check_words_at(&rt, &rows, 0, &[0, 0, 0]);
    Ok(())
}

// How bits are cut.
#[derive(Clone, Copy)]
enum Cutting {
    Even(u32),
    At(&'static [u32]),
}

use Cutting::{At, Even};

// So many bits, cut so.
fn made(alloc: Global, bits: u32, cutting: Cutting) -> Result<Cut, CutFault> {
    match cutting {
        Even(width) => Cut::even(alloc, bits, width),
        At(places) => Cut::at(alloc, bits, places),
    }
}

// The ranges of a cut, in order.
fn write_ranges(cut: &Cut, text: &mut String) -> Result<(), OutOfMemory> {
    for slice in 0..cut.slices() {
        let (start, end) = cut.range(slice);
        write!(text, "{start}..{end} ")?;
    }
    Ok(())
}

// Writes the ranges of a cut, or why it is none.
fn tell(alloc: Global, bits: u32, cutting: Cutting, text: &mut String) -> Result<(), OutOfMemory> {
    match made(alloc, bits, cutting) {
        Ok(cut) => write_ranges(&cut, text),
        Err(CutFault::ZeroWidth) => text.push_str("zero width"),
        Err(CutFault::BadPlaces) => text.push_str("bad places"),
        Err(CutFault::OutOfMemory) => Err(OutOfMemory),
    }
}

fn check_text(rt: &impl Abort, case: usize, told: &str, want: &str) {
    assert_eq!(rt; told, want, "case {case}");
}

// Bits, how they are cut, and the ranges or the fault.
const CUTS: &[(u32, Cutting, &str)] = &[
    (70, Even(32), "0..32 32..64 64..70 "),
    (70, Even(63), "0..63 63..70 "),
    (70, Even(64), "0..64 64..70 "),
    (70, Even(65), "0..65 65..70 "),
    (70, Even(70), "0..70 "),
    (70, Even(u32::MAX), "0..70 "),
    (70, At(&[1, 64]), "0..1 1..64 64..70 "),
    (8, At(&[]), "0..8 "),
    (0, Even(5), ""),
    (0, At(&[]), ""),
    (8, Even(0), "zero width"),
    (8, At(&[0, 3]), "bad places"),
    (8, At(&[3, 8]), "bad places"),
    (8, At(&[3, 3]), "bad places"),
    (8, At(&[5, 3]), "bad places"),
    (8, At(&[0]), "bad places"),
    (8, At(&[8]), "bad places"),
    (0, At(&[0]), "bad places"),
];

#[test]
fn cuts(rt: HostRuntime) -> Result<(), OutOfMemory> {
    for (case, (bits, cutting, want)) in CUTS.iter().enumerate() {
        let mut told = String::new(rt.alloc());
        tell(rt.alloc(), *bits, *cutting, &mut told)?;
        check_text(&rt, case, told.as_str(), want);
    }
    Ok(())
}

// How many slices 70 bits have in slices of a width, and how many bits the cut is of.
fn slices_of_seventy(alloc: Global, width: u32) -> Result<(u32, u32), CutFault> {
    let cut = Cut::even(alloc, 70, width)?;
    Ok((cut.slices(), cut.bits()))
}

const NUMBERS_OF_SLICES: &[(u32, u32)] = &[(1, 70), (7, 10), (63, 2), (64, 2), (65, 2), (70, 1)];

#[test]
fn numbers_of_slices(rt: HostRuntime) -> Result<(), CutFault> {
    for (width, slices) in NUMBERS_OF_SLICES {
        assert!(rt;
            slices_of_seventy(rt.alloc(), *width)? == (*slices, 70),
            "width {width}"
        );
    }
    Ok(())
}

const FAULT_TEXTS: &[(CutFault, &str)] = &[
    (CutFault::ZeroWidth, "31: a slice's width is zero"),
    (
        CutFault::BadPlaces,
        "32: the places of a cut do not rise between the first bit and the last",
    ),
    (CutFault::OutOfMemory, "out of memory"),
];

#[test]
fn fault_texts(rt: HostRuntime) -> Result<(), OutOfMemory> {
    for (case, (fault, want)) in FAULT_TEXTS.iter().enumerate() {
        let told = format!(in rt.alloc(); "{fault}")?;
        check_text(&rt, case, told.as_str(), want);
    }
    Ok(())
}
