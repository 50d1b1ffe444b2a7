// Names by number: a table in which each name stands once, in the order in which they came.

ghost use Rattle.std.specs.Prelude.{◌≡◌, ◌≢◌, ◌+◌, ◌<◌, ◌≤◌, ◌^◌, ◌↔◌, [], length, slice_get, Some, None, OnOk, IfOk, IfSome, not};
ghost use Rattle.std.specs.Prelude.{position, bytes_eq};
ghost use Rattle.tac_program.specs.Names.{is_one_of, noted, name_at};

use crate::OutOfMemory;
use crate::name_hashers::{NameHashers, NameSeeds};
use crate::name_keys::{NameKey, Spelling};
use indexmap::IndexSet;
use std::alloc::Global;
use std::marker::Model;

/// How many names of a table are hashed without the text's digest. Where they all fall together, a name that is looked up
/// is compared with no more than these.
const FEW_NAMES: usize = 64;

/// Names, each once, by number from 0. A table has at most `u32::MAX` of them.
#[derive(Debug, Drop)]
pub struct NameTable {
    names: IndexSet<NameKey, NameHashers>,
    is_seeded: bool,
}

impl Model for NameTable {
    ghost use Rattle.std.specs.Prelude.{List, ℕ, map, length, ◌<◌, ◌^◌};
    ghost use Rattle.tac_program.specs.code.Names.{texts};

    ghost Value = { List (List ℕ) };

    ghost view = { λ table. texts table.names.keys };

    ghost invariant = { λ table. length table.names.keys < 2 ^ 32 };
}

impl NameTable {
    /// A table of no names, which takes no memory until the first.
    pub fn new(alloc: Global) -> Self
        ensures { result ≡ [] }
    {
        NameTable {
            names: IndexSet::with_hasher(alloc, NameHashers::plain()),
            is_seeded: false,
        }
    }

    /// How many names there are.
    pub fn len(&self) -> u32
        ensures { result ≡ length self.now }
    {
        self.names.len() as u32
    }

    /// The name of this number.
    pub fn name(&self, number: u32) -> &[u8]
        requires { number < length self.now }
        ensures { slice_get self.now number ≡ Some result.now }
    {
        self.names.as_slice()[number as usize].bytes.as_slice()
    }

    /// The name of this number, or no bytes where it is none's.
    pub fn name_or_empty(&self, number: u32) -> &[u8]
        ensures { result.now ≡ name_at self.now number }
    {
        if number < self.len() {
            self.name(number)
        } else {
            &[]
        }
    }

    /// The number of a name, where it is there.
    pub fn find(&self, name: &[u8]) -> Option<u32>
        ensures number { result ≡ position (bytes_eq name.now) self.now }
        ensures within { IfSome result (λ n. n < length self.now) }
    {
        match self.names.get_index_of(Spelling { bytes: name }) {
            None => None,
            Some(number) => Some(number as u32),
        }
    }

    /// Hashes the names anew, with the text's digest, where they are more than a few.
    fn seed(&mut self, alloc: Global, seeds: &mut NameSeeds<'_>) -> Result<(), OutOfMemory>
        ensures { OnOk result (self.new ≡ self.old) }
    {
        if self.is_seeded || self.names.len() < FEW_NAMES {
            return Ok(());
        }
        let mut seeded = IndexSet::with_hasher(alloc, seeds.digested());
        seeded.append(&mut self.names)?;
        self.names = seeded;
        self.is_seeded = true;
        Ok(())
    }

    /// Puts a name last, unless it is there already; answers its number, and whether it was new.
    pub fn insert_full(
        &mut self,
        alloc: Global,
        seeds: &mut NameSeeds<'_>,
        name: &[u8],
    ) -> Result<(u32, bool), OutOfMemory>
        ensures noted { OnOk result (self.new ≡ noted self.old name.now) }
        ensures number { IfOk result (λ r. position (bytes_eq name.now) self.new ≡ Some r.0) }
        ensures new { IfOk result (λ r. r.1 ≡ not (is_one_of name.now self.old)) }
    {
        if let Some(number) = self.find(name) {
            return Ok((number, false));
        }
        if self.len() == u32::MAX {
            return Err(OutOfMemory);
        }
        self.seed(alloc, seeds)?;
        let bytes = Vec::from_slice(alloc, name)?;
        let number = self.len();
        let _ = self.names.insert_full(NameKey { bytes })?;
        Ok((number, true))
    }
}
