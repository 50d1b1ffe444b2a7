// Which part is asked for, by numbers and by words.

ghost use Rattle.std.specs.Prelude.{◌≡◌, ◌∷◌, []};
ghost use Rattle.part_texts.specs.Shares.{read_share, share_from, share_of, some_share};

use crate::cuts::cut;
use crate::heading::MOST_PARTS;
use crate::number::read_number;
use crate::share::Share;

impl Share {
    /// This part of so many. None where it is out of range.
    pub fn new(part: u32, count: u32) -> Option<Share>
        ensures { some_share result ≡ share_from part count }
    {
        if part < 1 || count < part || count > MOST_PARTS {
            return None;
        }
        Some(Share { part, count })
    }

    /// The part that the words `K/N` name. None where they name none.
    pub fn read(text: &[u8]) -> Option<Share>
        ensures { some_share result ≡ read_share text.now }
    {
        let (part, count) = cut(text, b'/')?;
        match cut(count, b'/') {
            Some(_) => None,
            None => Share::read_two(part, count),
        }
    }

    // The part that two numbers name.
    fn read_two(part: &[u8], count: &[u8]) -> Option<Share>
        ensures { some_share result ≡ share_of (part.now ∷ count.now ∷ []) }
    {
        let part = read_number(part, MOST_PARTS)?;
        let count = read_number(count, MOST_PARTS)?;
        Share::new(part, count)
    }
}
