// Texts that are written often, made once.

ghost use Rattle.std.specs.Prelude.{◌≡◌, ◌-◌, ◌<◌, ◌≤◌, [], length, map, IfOk};
ghost use Rattle.std.specs.List.{range_with_len};
ghost use Rattle.text_pieces.specs.code.Blocks.{separator_text, with_text};
ghost use Rattle.text_pieces.specs.code.Lists.{after, text_at};

use crate::OutOfMemory;
use crate::separator::Separator;
use std::alloc::Global;
use std::marker::Model;

/// Texts by number, all in one block of bytes, each behind the same separator, and where each begins and ends. So the texts of
/// numbers in a row are one range of bytes.
#[derive(Drop)]
pub struct TextBlock {
    separator: Separator,
    bytes: Vec<u8>,
    marks: Vec<usize>,
}

impl Model for TextBlock {
    ghost use Rattle.text_pieces.specs.code.Blocks.{IsBlock, SeparatedTexts, separator_text, texts_of};

    ghost Value = { SeparatedTexts };

    ghost view = { λ block. record {
      between = separator_text block.separator;
      texts = texts_of (separator_text block.separator) block.bytes.items block.marks.items;
    } };

    ghost invariant = { λ block. IsBlock (separator_text block.separator) block.bytes.items block.marks.items };
}

impl TextBlock {
    /// No texts yet. Fails only where memory runs out.
    pub fn new(alloc: Global, separator: Separator) -> Result<TextBlock, OutOfMemory>
        ensures { IfOk result (λ block. block ≡ record { between = separator_text separator; texts = [] }) }
    {
        let mut marks = Vec::new(alloc);
        marks.push(0)?;
        Ok(TextBlock {
            separator,
            bytes: Vec::new(alloc),
            marks,
        })
    }

    /// One text more. Fails only where memory runs out.
    pub fn with_text(self, text: &[u8]) -> Result<TextBlock, OutOfMemory>
        ensures { IfOk result (λ block. block ≡ with_text self text.now) }
    {
        let TextBlock {
            separator,
            mut bytes,
            mut marks,
        } = self;
        bytes.extend_from_slice(separator.bytes())?;
        bytes.extend_from_slice(text)?;
        marks.push(bytes.len())?;
        Ok(TextBlock {
            separator,
            bytes,
            marks,
        })
    }

    /// The texts of the numbers from the first on and before the end, with the separator between them, and before the first too
    /// where others stand already.
    #[inline]
    pub fn range(&self, first: usize, end: usize, others: bool) -> &[u8]
        requires some { first < end }
        requires end { end ≤ length self.now.texts }
        ensures { result.now ≡ after self.now.between others (map (text_at self.now.texts) (range_with_len first (end - first))) }
    {
        let stop = self.marks[end];
        let start = self.marks[first] + self.separator.skipped(others);
        &self.bytes[start..stop]
    }

    /// The text of a number.
    ///
    /// The condition: the number has one.
    pub fn text(&self, number: u32) -> &[u8]
        requires { number < length self.now.texts }
        ensures { result.now ≡ text_at self.now.texts number }
    {
        self.range(number as usize, number as usize + 1, false)
    }
}
