ghost use Rattle.std.specs.Prelude.{◌≡◌, ◌≢◌, ◌<◌, ◌↔◌, length, IsTrue, IsErrOf, OnOk, IfOk};
ghost use Rattle.bit_rows.specs.Slices.{CoverBits, IsEvenCut, ArePlaces, start_of, end_of, cut_at};

use crate::OutOfMemory;
use std::alloc::Global;
use std::marker::Model;
use thiserror::Error;

/// Why a universe of bits could not be cut.
#[derive(Clone, Copy, Debug, Drop, PartialEq, Eq, Error)]
pub enum CutFault {
    /// Slices of no bits were asked for.
    #[error("31: a slice's width is zero")]
    ZeroWidth,
    /// The places do not rise, or one is 0 or not below the number of bits.
    #[error("32: the places of a cut do not rise between the first bit and the last")]
    BadPlaces,
    /// There is no memory for the cut.
    #[error("out of memory")]
    OutOfMemory,
}

impl From<OutOfMemory> for CutFault {
    ghost use Rattle.std.specs.Prelude.{◌≡◌};
    ghost use Rattle.bit_rows.specs.declared.slicing.CutFault.TheVariants as fault;

    ghost from_gives = { λ _ e. e ≡ fault.OutOfMemory };

    fn from(_no_memory: OutOfMemory) -> CutFault {
        CutFault::OutOfMemory
    }
}

/// A universe of bits cut into slices: rising ranges, none empty, that together hold each bit once.
#[derive(Debug, Drop)]
pub struct Cut {
    bits: u32,
    ends: Vec<u32>,
}

impl Model for Cut {
    ghost use Rattle.std.specs.Prelude.{◌^◌, ◌<◌};
    ghost use Rattle.bit_rows.specs.Slices.{Slices, CoverBits};

    ghost Value = { Slices };

    ghost view = { λ c. record { bits = c.bits; ends = c.ends.items } };

    ghost invariant = { λ c. CoverBits (record { bits = c.bits; ends = c.ends.items })
        × (c.bits < 2 ^ 32) };
}

// Whether `0..bits` may be cut at the places.
fn are_places(bits: u32, places: &[u32]) -> bool
    ensures { IsTrue result ↔ ArePlaces bits places.now }
{
    let mut last = 0;
    for place in places {
        if *place <= last || bits <= *place {
            return false;
        }
        last = *place;
    }
    true
}

// Where each slice of `width` bits ends, and at last the universe.
fn even_ends(alloc: Global, bits: u32, width: u32) -> Result<Vec<u32>, OutOfMemory>
    requires { 0 < width }
    ensures { IfOk result (λ ends.
        IsEvenCut (record { bits = bits; ends = ends.items }) bits width) }
{
    let mut ends = Vec::with_capacity(alloc, bits.div_ceil(width) as usize)?;
    let mut end = 0;
    while end < bits {
        end += width.min(bits - end);
        ends.push(end)?;
    }
    Ok(ends)
}

// The places, and then the end of the universe where it has bits.
fn ends_at(alloc: Global, bits: u32, places: &[u32]) -> Result<Vec<u32>, OutOfMemory>
    ensures { IfOk result (λ ends.
        record { bits = bits; ends = ends.items } ≡ cut_at bits places.now) }
{
    let mut ends = Vec::with_capacity(alloc, places.len() + 1)?;
    ends.extend_from_slice(places)?;
    if bits > 0 {
        ends.push(bits)?;
    }
    Ok(ends)
}

impl Cut {
    /// Slices of `width` bits each, but for the last, which has what is left. Zero bits give zero
    /// slices.
    ///
    /// `ZeroWidth` where `width` is 0.
    pub fn even(alloc: Global, bits: u32, width: u32) -> Result<Cut, CutFault>
        ensures ok { IfOk result (λ cut. IsEvenCut cut bits width) }
        ensures zero_width { IsErrOf result CutFault.ZeroWidth ↔ (width ≡ 0) }
        ensures no_bad_places { result ≢ Err CutFault.BadPlaces }
    {
        if width == 0 {
            return Err(CutFault::ZeroWidth);
        }
        let ends = even_ends(alloc, bits, width)?;
        Ok(Cut { bits, ends })
    }

    /// Slices that end at the places, in order, and at `bits`. Zero bits give zero slices.
    ///
    /// `BadPlaces` where the places do not rise strictly, or one is 0 or not below `bits`.
    pub fn at(alloc: Global, bits: u32, places: &[u32]) -> Result<Cut, CutFault>
        ensures ok { IfOk result (λ cut. cut ≡ cut_at bits places.now) }
        ensures cover { IfOk result CoverBits }
        ensures good_places { OnOk result (ArePlaces bits places.now) }
        ensures bad_places { IsErrOf result CutFault.BadPlaces ↔ (¬ ArePlaces bits places.now) }
        ensures no_zero_width { result ≢ Err CutFault.ZeroWidth }
    {
        if !are_places(bits, places) {
            return Err(CutFault::BadPlaces);
        }
        let ends = ends_at(alloc, bits, places)?;
        Ok(Cut { bits, ends })
    }

    /// How many slices there are.
    pub fn slices(&self) -> u32
        ensures count { result ≡ length self.now.ends }
        ensures cover { CoverBits self.now }
    {
        self.ends.len() as u32
    }

    /// The slice's range: its first bit, and one more than its last.
    pub fn range(&self, slice: u32) -> (u32, u32)
        requires { slice < length self.now.ends }
        ensures start { result.0 ≡ start_of self.now slice }
        ensures end { result.1 ≡ end_of self.now slice }
        ensures nonempty { result.0 < result.1 }
    {
        let at = slice as usize;
        let start = if at == 0 { 0 } else { self.ends[at - 1] };
        (start, self.ends[at])
    }

    /// How many bits the universe has.
    pub fn bits(&self) -> u32
        ensures { result ≡ self.now.bits }
    {
        self.bits
    }
}
