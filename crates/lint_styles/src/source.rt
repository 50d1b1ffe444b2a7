// Lines of the source behind what is told of them.

ghost use Rattle.std.specs.Prelude.{◌≡◌, ◌<◌, ◌-◌, ◌^◌, decimal, length};
ghost use Rattle.lint_styles.specs.Styles.{blanks, is_shown as shown, margin, sign_line, source_at, source_lines, source_of, text_line, wanted_source};
ghost use Rattle.text_pieces.specs.Pieces.{CanWrite, Writes};

use crate::bytes::{write_below, write_size, write_source_bytes};
use crate::lines::{before_place, behind_lines, first_line, line_start, without_return};
use crate::style::{Hue, Style, write_painted};
use itoa::Buffer;
use text_pieces::{Pieces, Sink};

/// In how many places the number of a line stands at least.
const PLACES: usize = 5;

/// How many bytes of the source a line has at most that is shown.
const MOST_SHOWN: usize = 512;

// Writes so many blanks.
fn write_blanks<K: Sink>(out: &mut Pieces<'_, K>, count: usize)
    requires { CanWrite K.Sink out.old }
    ensures { Writes K.Sink out.old out.new (blanks count) }
{
    for _i in 0..count {
        out.write(b" ");
    }
}

// How many digits a number has.
fn digits_of(number: u32) -> usize
    ensures { result ≡ length (decimal number) }
{
    Buffer::new().format(number).len()
}

// Writes the number of a line.
fn write_margin<K: Sink>(out: &mut Pieces<'_, K>, number: u32)
    requires { CanWrite K.Sink out.old }
    ensures { Writes K.Sink out.old out.new (margin number) }
{
    write_blanks(out, PLACES.saturating_sub(digits_of(number)));
    write_size(out, number as usize);
}

// Writes a line of the source with its number.
fn write_text_line<K: Sink>(out: &mut Pieces<'_, K>, number: u32, line: &[u8])
    requires { CanWrite K.Sink out.old }
    ensures { Writes K.Sink out.old out.new (text_line number line.now) }
{
    write_margin(out, number);
    out.write(b" | ");
    write_source_bytes(out, without_return(line));
    out.write(b"\n");
}

// Writes what stands below it.
fn write_sign_line<K: Sink>(out: &mut Pieces<'_, K>, style: Style, number: u32, before: &[u8])
    requires { CanWrite K.Sink out.old }
    ensures { Writes K.Sink out.old out.new (sign_line style number before.now) }
{
    write_blanks(out, digits_of(number).max(PLACES));
    out.write(b" | ");
    write_below(out, before);
    write_painted(out, style, Hue::Caret, b"^");
    out.write(b"\n");
}

// Writes a line of the source, and a sign below it behind what stands below these bytes of it.
fn write_source_lines<K: Sink>(
    out: &mut Pieces<'_, K>,
    style: Style,
    number: u32,
    before: &[u8],
    line: &[u8],
)
    requires { CanWrite K.Sink out.old }
    ensures { Writes K.Sink out.old out.new (source_lines style number before.now line.now) }
{
    write_text_line(out, number, line);
    write_sign_line(out, style, number, before);
}

// Whether a line has bytes, and not too many.
fn is_shown(line: &[u8]) -> bool
    ensures { result ≡ shown line.now }
{
    0 < line.len() && line.len() <= MOST_SHOWN
}

// Writes them where lines of the source are shown, and this one is.
fn write_wanted<K: Sink>(
    out: &mut Pieces<'_, K>,
    style: Style,
    number: u32,
    before: &[u8],
    line: &[u8],
)
    requires { CanWrite K.Sink out.old }
    ensures { Writes K.Sink out.old out.new (wanted_source style number before.now line.now) }
{
    if style.source && is_shown(line) {
        write_source_lines(out, style, number, before, line);
    }
}

/// Writes the line of a text in which a place lies, which has this number, where lines of the source are shown.
pub fn write_source_at<K: Sink>(
    out: &mut Pieces<'_, K>,
    style: Style,
    text: &[u8],
    number: u32,
    place: u32,
)
    requires ready { CanWrite K.Sink out.old }
    requires fits { length text.now < 2 ^ 64 - 1 }
    ensures { Writes K.Sink out.old out.new (source_at style text.now number place) }
{
    if !style.source {
        return;
    }
    let before = before_place(text, place);
    let start = line_start(before);
    let line = first_line(&text[start..]);
    write_wanted(out, style, number, &before[start..], line);
}

/// Writes the line of this number of a text, where lines of the source are shown, with a sign below this column.
pub fn write_source_of<K: Sink>(
    out: &mut Pieces<'_, K>,
    style: Style,
    text: &[u8],
    number: u32,
    column: u32,
)
    requires { CanWrite K.Sink out.old }
    ensures { Writes K.Sink out.old out.new (source_of style text.now number column) }
{
    if !style.source {
        return;
    }
    let line = first_line(behind_lines(text, number.saturating_sub(1)));
    let before = &line[..line.len().min(column.saturating_sub(1) as usize)];
    write_wanted(out, style, number, before, line);
}
