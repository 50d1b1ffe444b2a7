// The hashers of names: which names fall together in a large table is not known before the text is whole.
//
// `FoldHasher` alone has no seed, so that names which all have one hash can be prepared, and a table of
// them takes time by their square. There is no runtime to draw a seed from. So in a table of more than a
// few names each hash begins and ends with the text's own digest. A name more or less is another
// text, and so another digest: who wants names to fall together has to choose them before he knows how they are
// hashed, and no digest can be aimed at. `docs/DECISIONS.md` tells why no names fall together for all of them.

use sha1::Sha1;
use std::hash::{BuildHasher, FoldHasher, Hasher};

/// A hasher of a name: what ends a hash comes behind all that is written.
#[derive(Clone, Copy)]
pub struct NameHasher {
    written: FoldHasher,
    end: [u8; 20],
}

impl Hasher for NameHasher {
    ghost write = { λ hasher bytes. record hasher { written = ⟦<FoldHasher as Hasher>⟧.write hasher.written bytes } };

    ghost finish = { λ hasher. ⟦<FoldHasher as Hasher>⟧.finish (⟦<FoldHasher as Hasher>⟧.write hasher.written hasher.end) };

    fn finish(&self) -> u64 {
        let mut written = self.written;
        written.write(&self.end);
        written.finish()
    }

    fn write(&mut self, bytes: &[u8]) {
        self.written.write(bytes);
    }
}

/// What makes the hashers of a table's names.
#[derive(Clone, Copy)]
pub struct NameHashers {
    begun: NameHasher,
}

impl NameHashers {
    /// The hashers of a few names, without a digest.
    pub fn plain() -> Self {
        NameHashers {
            begun: NameHasher {
                written: FoldHasher::default(),
                end: [0; 20],
            },
        }
    }
}

/// What makes the hashers of many names: a text, whose digest is found when it is first asked for.
#[derive(Drop)]
pub struct NameSeeds<'a> {
    text: &'a [u8],
    digested: Option<NameHashers>,
}

impl<'a> NameSeeds<'a> {
    /// The hashers of this text's names.
    pub fn of(text: &'a [u8]) -> Self {
        NameSeeds {
            text,
            digested: None,
        }
    }

    /// The hashers that begin and end with the text's digest.
    pub fn digested(&mut self) -> NameHashers {
        if let Some(hashers) = self.digested {
            return hashers;
        }
        let end = Sha1::digest(self.text);
        let mut written = FoldHasher::default();
        written.write(&end);
        let hashers = NameHashers {
            begun: NameHasher { written, end },
        };
        self.digested = Some(hashers);
        hashers
    }
}

impl BuildHasher for NameHashers {
    type Hasher = NameHasher;

    ghost build_hasher = { λ hashers. hashers.begun };

    fn build_hasher(&self) -> NameHasher {
        self.begun
    }
}
