// The names of a program's procedures and variables.

ghost use Rattle.std.specs.Prelude.{◌≡◌, ◌<◌, ◌≤◌, Some, length, slice_get, IfErr, MatchBool, OnErr, OnOk};
ghost use Rattle.std.specs.List.{concat};
ghost use Rattle.flow_records.specs.Names.{IsNamesRoomFault, AreNames, names_of};

use crate::fault::Fault;
use tac_program::Program;

/// What is named.
#[derive(Clone, Copy)]
pub enum Named {
    Procedures,
    Variables,
}

// How many names there are.
fn count_names(program: &Program, named: Named) -> u32
    ensures { result ≡ length (names_of named program.now) }
{
    match named {
        Named::Procedures => program.procs().len() as u32,
        Named::Variables => program.variables(),
    }
}

fn name(program: &Program, named: Named, number: u32) -> &[u8]
    requires { number < length (names_of named program.now) }
    ensures { slice_get (names_of named program.now) number ≡ Some result.now }
{
    match named {
        Named::Procedures => program.procedure(number),
        Named::Variables => program.variable(number),
    }
}

// Whether the names have room in so many bytes.
fn have_room(program: &Program, named: Named, room: usize) -> bool
    ensures { MatchBool result (length (concat (names_of named program.now)) ≤ room) (room < length (concat (names_of named program.now))) }
{
    let mut left = room;
    for number in 0..count_names(program, named) {
        let length = name(program, named, number).len();
        if left < length {
            return false;
        }
        left -= length;
    }
    true
}

// Puts the names one after the other, and where each ends.
fn put_names(program: &Program, named: Named, ends: &mut [usize], bytes: &mut [u8])
    requires ends { length ends.old ≡ length (names_of named program.now) }
    requires room { length (concat (names_of named program.now)) ≤ length bytes.old }
    ensures { AreNames (names_of named program.now) ends.new bytes.old bytes.new }
{
    let mut at = 0;
    for number in 0..count_names(program, named) {
        let name = name(program, named, number);
        let end = at + name.len();
        bytes[at..end].copy_from_slice(name);
        ends[number as usize] = end;
        at = end;
    }
}

/// Puts the names end to end, and where each ends, into room for them: an end for each, and bytes for all.
pub fn fill_names(
    program: &Program,
    named: Named,
    ends: &mut [usize],
    bytes: &mut [u8],
) -> Result<(), Fault>
    ensures names { OnOk result (AreNames (names_of named program.now) ends.new bytes.old bytes.new) }
    ensures kept { OnErr result ((ends.new ≡ ends.old) × (bytes.new ≡ bytes.old)) }
    ensures fault { IfErr result (IsNamesRoomFault program.now named (length ends.old) (length bytes.old)) }
{
    if ends.len() != count_names(program, named) as usize
        || !have_room(program, named, bytes.len())
    {
        return Err(Fault::BadRoom);
    }
    put_names(program, named, ends, bytes);
    Ok(())
}
