// Names by their ends and bytes.

ghost use Rattle.std.specs.Prelude.{◌≡◌, ◌^◌, ◌<◌, ◌≤◌, ◌↔◌, All, IfErr, IfOk, IsTrue, length, take};
ghost use Rattle.std.specs.List.{list_all};
ghost use Rattle.flow_builder.specs.Built.{names_from};
ghost use Rattle.flow_builder.specs.Checks.{IsNamesFault};
ghost use Rattle.tac_program.specs.Names.{is_one_of};
ghost use Rattle.tac_program.specs.Sound.{AllDiffer, IsLawfulName};
ghost use Rattle.tac_program.specs.Spelling.{is_letter as is_a_letter, is_name as is_a_name, is_name_byte as is_a_name_byte, keywords};

use crate::OutOfMemory;
use crate::arrays::BuiltNames;
use std::alloc::Global;
use tac_program::{NameSeeds, NameTable};

/// The longest name has so many bytes.
const LONGEST: usize = 64;

/// Why names make no table.
#[derive(Clone, Copy)]
pub(crate) enum NamesFault {
    /// The name of this number is none of the language, stands twice, or has no bytes there.
    Bad(u32),
    /// Memory was refused.
    OutOfMemory,
}

impl From<OutOfMemory> for NamesFault {
    ghost use Rattle.std.specs.Prelude.{◌≡◌};
    ghost use Rattle.flow_builder.specs.declared.names.NamesFault.TheVariants as fault;

    ghost from_gives = { λ _ e. e ≡ fault.OutOfMemory };

    fn from(_no_memory: OutOfMemory) -> NamesFault {
        NamesFault::OutOfMemory
    }
}

fn is_letter(byte: u8) -> bool
    ensures { result ≡ is_a_letter byte }
{
    byte.is_ascii_uppercase() || byte.is_ascii_lowercase() || byte == b'_'
}

fn is_name_byte(byte: u8) -> bool
    ensures { result ≡ is_a_name_byte byte }
{
    is_letter(byte) || byte.is_ascii_digit()
}

fn are_name_bytes(bytes: &[u8]) -> bool
    ensures { result ≡ list_all is_a_name_byte bytes.now }
{
    bytes.iter().all(|byte| is_name_byte(*byte))
}

fn is_name(name: &[u8]) -> bool
    ensures { result ≡ is_a_name name.now }
{
    match name.split_first() {
        None => false,
        Some((first, rest)) => is_letter(*first) && are_name_bytes(rest),
    }
}

fn is_keyword(name: &[u8]) -> bool
    ensures { result ≡ is_one_of name.now keywords }
{
    name == b"proc".as_slice()
        || name == b"end".as_slice()
        || name == b"goto".as_slice()
        || name == b"if".as_slice()
        || name == b"ifFalse".as_slice()
        || name == b"call".as_slice()
        || name == b"return".as_slice()
        || name == b"read".as_slice()
        || name == b"print".as_slice()
        || name == b"skip".as_slice()
}

fn is_lawful(name: &[u8]) -> bool
    ensures { IsTrue result ↔ IsLawfulName name.now }
{
    name.len() <= LONGEST && is_name(name) && !is_keyword(name)
}

/// The names of these ends and bytes.
pub(crate) fn names(alloc: Global, built: BuiltNames<'_>) -> Result<NameTable, NamesFault>
    requires { length built.ends.now < 2 ^ 32 }
    ensures names { IfOk result (λ table. table ≡ names_from 0 built.entry.ends.now built.entry.bytes.now) }
    ensures lawful { IfOk result (λ table. All IsLawfulName table) }
    ensures differ { IfOk result (λ table. AllDiffer table) }
    ensures fault { IfErr result (IsNamesFault built.entry) }
{
    let ends = built.ends;
    let bytes = built.bytes;
    let mut seeds = NameSeeds::of(bytes);
    let mut table = NameTable::new(alloc);
    let mut start = 0;
    for number in 0..ends.len() {
        let end = ends[number];
        if end < start || bytes.len() < end {
            return Err(NamesFault::Bad(number as u32));
        }
        let name = &bytes[start..end];
        if !is_lawful(name) {
            return Err(NamesFault::Bad(number as u32));
        }
        let added = table.insert_full(alloc, &mut seeds, name)?;
        if !added.1 {
            return Err(NamesFault::Bad(number as u32));
        }
        start = end;
    }
    Ok(table)
}

/// The first names of a table, in which each stands once.
pub(crate) fn first_names(
    alloc: Global,
    bytes: &[u8],
    table: &NameTable,
    count: u32,
) -> Result<NameTable, OutOfMemory>
    requires few { count ≤ length table.now }
    requires differ { AllDiffer table.now }
    ensures { IfOk result (λ first. first ≡ take count table.now) }
{
    let mut seeds = NameSeeds::of(bytes);
    let mut first = NameTable::new(alloc);
    for number in 0..count {
        let _ = first.insert_full(alloc, &mut seeds, table.name(number))?;
    }
    Ok(first)
}
