// Which bits of an analysis are solved, and in which columns.
ghost use Rattle.std.specs.Prelude.{◌≡◌, ◌^◌, ◌<◌, ◌↔◌, ℕ, true, None, Some, length, nat_eq, option_map, slice_index, unwrap_or};
ghost use Rattle.std.specs.Prelude.{IfOk, IfSome, IsTrue};
ghost use Rattle.gen_kill.specs.Selections.{bit_in};
ghost use Rattle.gen_kill.specs.code.Columns.{HasColumn};
ghost use Rattle.gen_kill.specs.code.Effects.{effect_owns, marks};

use crate::OutOfMemory;
use crate::effect::Effect;
use std::alloc::Global;
use std::marker::Model;

/// The bits that are solved: all, each its own column, or chosen ones.
#[derive(Drop)]
pub(crate) struct Columns {
    is_all: bool,
    // The chosen bits, by column.
    bits: Vec<u32>,
    // By bit, the column of each that was chosen.
    columns: Vec<u32>,
}

impl Model for Columns {
    ghost use Rattle.std.specs.Prelude.{ℕ, List, Option};
    ghost use Rattle.gen_kill.specs.code.Columns.{AreColumnsOf, chosen_if};

    ghost Value = { Option (List ℕ) };

    ghost view = { λ c. chosen_if c.is_all c.bits.items };

    ghost invariant = { λ c. AreColumnsOf c.bits.items c.columns.items };
}

// The number at a place; past the last one, any.
fn number_at(numbers: &[u32], place: u32) -> u32
    ensures { place < length numbers.now → result ≡ slice_index numbers.now place }
{
    if (place as usize) < numbers.len() {
        numbers[place as usize]
    } else {
        0
    }
}

// Whether the number at a place is this one.
fn is_number_at(numbers: &[u32], place: u32, number: u32) -> bool
    ensures { IsTrue result ↔ ((place < length numbers.now) × (slice_index numbers.now place ≡ number)) }
{
    match numbers.get(place as usize) {
        Some(there) => *there == number,
        None => false,
    }
}

impl Columns {
    /// All bits.
    pub(crate) fn all(alloc: Global) -> Columns
        ensures { result ≡ None }
    {
        Columns {
            is_all: true,
            bits: Vec::new(alloc),
            columns: Vec::new(alloc),
        }
    }

    /// These bits, of so many.
    pub(crate) fn chosen(alloc: Global, bits: Vec<u32>, count: u32) -> Result<Columns, OutOfMemory>
        requires within { (column : ℕ) → column < length bits.items → slice_index bits.items column < count }
        requires rising { (i j : ℕ) → i < j → j < length bits.items → slice_index bits.items i < slice_index bits.items j }
        requires few { length bits.items < 2 ^ 32 }
        ensures { IfOk result (λ c. c ≡ Some bits.items) }
    {
        let mut columns = vec![in alloc; 0u32; count as usize]?;
        for column in 0..bits.len() {
            columns[bits[column] as usize] = column as u32;
        }
        Ok(Columns {
            is_all: false,
            bits,
            columns,
        })
    }

    /// The same columns once more.
    pub(crate) fn copied(&self, alloc: Global) -> Result<Columns, OutOfMemory>
        ensures { IfOk result (λ c. c ≡ self.now) }
    {
        let bits = self.bits.as_slice().to_vec(alloc)?;
        let columns = self.columns.as_slice().to_vec(alloc)?;
        Ok(Columns {
            is_all: self.is_all,
            bits,
            columns,
        })
    }

    /// Whether they are all bits.
    pub(crate) fn are_all(&self) -> bool
        ensures { result ≡ true → self.now ≡ None }
    {
        self.is_all
    }

    /// How many columns there are, where the analysis has so many bits.
    pub(crate) fn count(&self, bits: u32) -> u32
        ensures { result ≡ unwrap_or (option_map length self.now) bits }
    {
        if self.is_all {
            bits
        } else {
            self.bits.len() as u32
        }
    }

    /// The bit of a column.
    pub(crate) fn bit(&self, column: u32) -> u32
        requires { HasColumn self.now column }
        ensures { result ≡ bit_in self.now column }
    {
        if self.is_all {
            column
        } else {
            self.bits[column as usize]
        }
    }

    /// The column of a bit, if it has one.
    pub(crate) fn column(&self, bit: u32) -> Option<u32>
        ensures marked { (column : ℕ) → HasColumn self.now column → marks result column ≡ nat_eq (bit_in self.now column) bit }
        ensures there { IfSome result (λ column. HasColumn self.now column × (bit_in self.now column ≡ bit)) }
    {
        if self.is_all {
            return Some(bit);
        }
        let column = number_at(self.columns.as_slice(), bit);
        if is_number_at(self.bits.as_slice(), column, bit) {
            Some(column)
        } else {
            None
        }
    }

    // The same of a bit, if there is one.
    fn column_if(&self, bit: Option<u32>) -> Option<u32>
        ensures { (column : ℕ) → HasColumn self.now column → marks result column ≡ marks bit (bit_in self.now column) }
    {
        match bit {
            Some(bit) => self.column(bit),
            None => None,
        }
    }

    /// An effect by columns, of the effect by bits.
    pub(crate) fn effect(&self, effect: Effect) -> Effect
        ensures written { result.written ≡ effect.written }
        ensures own { (column : ℕ) → HasColumn self.now column → effect_owns result column ≡ effect_owns effect (bit_in self.now column) }
    {
        Effect {
            first: self.column_if(effect.first),
            second: self.column_if(effect.second),
            written: effect.written,
        }
    }
}
