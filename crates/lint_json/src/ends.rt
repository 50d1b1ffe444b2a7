// The first and the last lines of a file.

ghost use Rattle.std.specs.Prelude.{◌≡◌, codes};
ghost use Rattle.lint_json.specs.LintJson.{end_line, file_line, from_line, line_begin, untold_line, wanted_untold};
ghost use Rattle.lint_json.specs.RefusalJson.{boolean as boolean_text, errors_line};
ghost use Rattle.lint_texts.specs.code.Lines.{AreLintLines};
ghost use Rattle.text_pieces.specs.Pieces.{CanWrite, Writes};

use lint_styles::write_size;
use lint_texts::LintLines;
use refusal_texts::{MOST_TOLD, has_more};
use std::marker::Model;
use text_pieces::{Pieces, Sink, Text, write_quoted};

/// Writes the beginning of a line of this type, in a file of this name.
pub(crate) fn write_begin<K: Sink>(out: &mut Pieces<'_, K>, kind: &[u8], name: &[u8])
    requires { CanWrite K.Sink out.old }
    ensures { Writes K.Sink out.old out.new (line_begin kind.now name.now) }
{
    out.write(b"{\"type\":\"");
    out.write(kind);
    out.write(b"\",\"file\":");
    write_quoted(out, name);
}

/// The first line of a file of this name.
#[derive(Clone, Copy)]
pub(crate) struct FileText<'a> {
    pub name: &'a [u8],
}

impl<'a> Text for FileText<'a> {
    ghost use Rattle.lint_json.specs.LintJson.{file_line};

    ghost bytes = { λ text. file_line text.name.now };

    fn write<K: Sink>(&self, out: &mut Pieces<'_, K>) {
        write_begin(out, b"file", self.name);
        out.write(b",\"version\":1}\n");
    }
}

// Writes from which line on the program may never end.
fn write_from<K: Sink>(out: &mut Pieces<'_, K>, lines: &LintLines<'_>)
    requires ready { CanWrite K.Sink out.old }
    requires lines { AreLintLines lines.now }
    ensures { Writes K.Sink out.old out.new (from_line lines.now.file.text.now lines.now.graph.now lines.now.linted.now.endless) }
{
    match lines.linted.endless {
        Some(point) => write_size(out, lines.point_start(point).line as usize),
        None => out.write(b"null"),
    }
}

// Writes how many dead assignments are not told.
fn write_untold<K: Sink>(out: &mut Pieces<'_, K>, name: &[u8], lines: &LintLines<'_>)
    requires ready { CanWrite K.Sink out.old }
    requires lines { AreLintLines lines.now }
    ensures { Writes K.Sink out.old out.new (untold_line name.now lines.now.file.text.now lines.now.graph.now lines.now.linted.now) }
{
    write_begin(out, b"untold", name);
    out.write(b",\"count\":");
    write_size(out, lines.linted.left_out as usize);
    out.write(b",\"from_line\":");
    write_from(out, lines);
    out.write(b"}\n");
}

// Writes that, where it is wanted and so.
fn write_wanted<K: Sink>(out: &mut Pieces<'_, K>, name: &[u8], lines: &LintLines<'_>)
    requires ready { CanWrite K.Sink out.old }
    requires lines { AreLintLines lines.now }
    ensures { Writes K.Sink out.old out.new
        (wanted_untold name.now lines.now.file.text.now lines.now.telling lines.now.graph.now lines.now.linted.now) }
{
    if lines.has_untold() {
        write_untold(out, name, lines);
    }
}

// Writes the last line, with how many remarks there are.
fn write_end<K: Sink>(out: &mut Pieces<'_, K>, name: &[u8], count: usize)
    requires { CanWrite K.Sink out.old }
    ensures { Writes K.Sink out.old out.new (end_line name.now count) }
{
    write_begin(out, b"end", name);
    out.write(b",\"remarks\":");
    write_size(out, count);
    out.write(b"}\n");
}

/// The lines of a program's file behind those of its lints.
#[derive(Drop)]
pub(crate) struct EndText<'a> {
    pub name: &'a [u8],
    pub lines: &'a LintLines<'a>,
}

impl<'a> Model for EndText<'a> {
    ghost use Rattle.std.specs.Prelude.{◌++◌, List, ℕ};
    ghost use Rattle.lint_json.specs.LintJson.{end_line, wanted_untold};
    ghost use Rattle.lint_texts.specs.LintTexts.{told_count};
    ghost use Rattle.lint_texts.specs.code.Lines.{AreLintLines};

    ghost Value = { List ℕ };

    ghost view = { λ text. wanted_untold text.name.now text.lines.now.file.text.now text.lines.now.telling text.lines.now.graph.now
        text.lines.now.linted.now
        ++ end_line text.name.now (told_count text.lines.now.telling text.lines.now.graph.now text.lines.now.linted.now) };

    ghost invariant = { λ text. AreLintLines text.lines.now };
}

impl<'a> Text for EndText<'a> {
    ghost bytes = { λ text. text };

    fn write<K: Sink>(&self, out: &mut Pieces<'_, K>) {
        write_wanted(out, self.name, self.lines);
        write_end(out, self.name, self.lines.told_count());
    }
}

// Writes a truth value.
fn write_boolean<K: Sink>(out: &mut Pieces<'_, K>, is_so: bool)
    requires { CanWrite K.Sink out.old }
    ensures { Writes K.Sink out.old out.new (boolean_text is_so) }
{
    if is_so {
        out.write(b"true");
    } else {
        out.write(b"false");
    }
}

/// The last line of a file that is refused, in which so many errors were found.
#[derive(Clone, Copy)]
pub(crate) struct ErrorsText<'a> {
    pub name: &'a [u8],
    pub count: usize,
}

impl<'a> Text for ErrorsText<'a> {
    ghost use Rattle.lint_json.specs.RefusalJson.{errors_line};

    ghost bytes = { λ text. errors_line text.name.now text.count };

    fn write<K: Sink>(&self, out: &mut Pieces<'_, K>) {
        write_begin(out, b"end", self.name);
        out.write(b",\"errors\":");
        write_size(out, self.count.min(MOST_TOLD));
        out.write(b",\"first\":");
        write_boolean(out, has_more(self.count));
        out.write(b"}\n");
    }
}
