// Lines of places in a text, for places that mostly rise.

ghost use Rattle.std.specs.Prelude.{◌≡◌, ◌+◌, ◌<◌, ◌≤◌, ◌^◌, length, take, count_by};
ghost use Rattle.tac_lines.specs.Text.{is_line_end, line_after};

use std::marker::Model;

/// A place in a text, and its line. It stands for the text.
#[derive(Drop)]
pub struct LineCursor<'a> {
    text: &'a [u8],
    at: u32,
    line: u32,
}

impl<'a> Model for LineCursor<'a> {
    ghost use Rattle.std.specs.Prelude.{◌≡◌, ◌+◌, ◌<◌, ◌≤◌, ◌^◌, ℕ, List, length, take};
    ghost use Rattle.tac_lines.specs.Text.{line_after};

    ghost Value = { List ℕ };

    ghost view = { λ cursor. cursor.text.now };

    ghost invariant = { λ cursor. (length cursor.text.now + 1 < 2 ^ 32) × (cursor.at ≤ length cursor.text.now)
        × (cursor.line ≡ line_after (take cursor.at cursor.text.now)) };
}

impl<'a> LineCursor<'a> {
    /// A cursor at the text's start.
    pub fn new(text: &'a [u8]) -> Self
        requires { length text.now + 1 < 2 ^ 32 }
        ensures { result ≡ text.now }
    {
        LineCursor {
            text,
            at: 0,
            line: 1,
        }
    }

    /// The line of a place, from 1; a place behind the text's end is on its last line. Takes as many
    /// steps as the place is behind the last one that was asked for, and else as many as it is far
    /// from the start.
    pub fn line_at(&mut self, place: u32) -> u32
        ensures line { result ≡ line_after (take place self.old) }
        ensures text { self.new ≡ self.old }
    {
        let stop = self.text.len().min(place as usize) as u32;
        if stop < self.at {
            self.at = 0;
            self.line = 1;
        }
        self.line += line_feeds(&self.text[self.at as usize..stop as usize]);
        self.at = stop;
        self.line
    }
}

/// How many line feeds there are.
fn line_feeds(bytes: &[u8]) -> u32
    requires { length bytes.now < 2 ^ 32 }
    ensures { result ≡ count_by is_line_end bytes.now }
{
    let mut count = 0;
    for byte in bytes {
        if *byte == b'\n' {
            count += 1;
        }
    }
    count
}
