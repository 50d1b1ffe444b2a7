// The text of a page.

ghost use Rattle.std.specs.Prelude.{◌≡◌, IfOk, option_map};
ghost use Rattle.page_texts.specs.Pages.{page_of};

use crate::OutOfMemory;
use crate::frame::{write_before, write_behind};
use crate::signs::write_safe;
use crate::title::title_lines;
use std::alloc::Global;
use std::marker::Model;
use text_pieces::{Pieces, Sink, Text, whole_text};

/// A page of HTML, in one file: a frame with a script, and in it lines of JSON, which the script shows. In the lines each `<` is written as
/// `\u003c`, which is the same sign between quotes, where alone it stands in JSON: so no line ends the element in which it stands. Before
/// the lines stands one with the page's title, where it has one:
///
///     {"type":"page","title":"program.tac"}
///
/// The lines are kept in memory.
#[derive(Drop)]
pub struct PageText {
    first: Vec<u8>,
    lines: Vec<u8>,
}

impl Model for PageText {
    ghost use Rattle.std.specs.Prelude.{List, ℕ};
    ghost use Rattle.page_texts.specs.Pages.{page_around};

    ghost Value = { List ℕ };

    ghost view = { λ page. page_around page.first.items page.lines.items };
}

impl PageText {
    /// The page of a text that is lines of JSON, under a title or none. A title is shown in one line, with a space for each control sign
    /// of ASCII. Fails only where memory runs out.
    pub fn of<T: Text>(
        alloc: Global,
        title: Option<&[u8]>,
        lines: &T,
    ) -> Result<PageText, OutOfMemory>
        ensures { IfOk result (λ page. page ≡ page_of (option_map (λ t. t.now) title.entry) (T.bytes lines.now)) }
    {
        let first = title_lines(alloc, title)?;
        let lines = whole_text(alloc, lines)?;
        Ok(PageText { first, lines })
    }
}

impl Text for PageText {
    ghost bytes = { λ page. page };

    fn write<K: Sink>(&self, out: &mut Pieces<'_, K>) {
        write_before(out);
        write_safe(out, &self.first);
        write_safe(out, &self.lines);
        write_behind(out);
    }
}
