// What a status says, in one line.

ghost use Rattle.std.specs.Prelude.{◌≡◌, ◌⊎◌, IfOk, length};
ghost use Rattle.tacflow_c.specs.Messages.{message_of, refusal_line, refusal_name as refusal_named, status_line as status_lined};
ghost use Rattle.flow_records.specs.Rooms.{HoldsList, NeedsRoom};

use crate::statuses::Place;
use flow_records::put_list;
use std::alloc::{AllocError as OutOfMemory, Global};

// The name of a refusal by its number.
fn refusal_name(number: u32) -> &'static str
    ensures { result.now ≡ refusal_named number }
{
    match number {
        1 => "BadByte",
        2 => "NumberTooLarge",
        3 => "NameTooLong",
        4 => "Syntax",
        5 => "Unclosed",
        6 => "NoMain",
        7 => "DuplicateProcedure",
        8 => "DuplicateLabel",
        9 => "UnknownLabel",
        10 => "UnknownProcedure",
        11 => "TextTooLong",
        12 => "TooManyProcedures",
        13 => "DuplicateCallee",
        _ => "unknown",
    }
}

// What another status says.
fn status_line(status: u32) -> &'static str
    ensures { result.now ≡ status_lined status }
{
    match status {
        0 => "no fault",
        2 => "out of memory",
        3 => "no such analysis",
        4 => "no such points or bits",
        5 => "the room does not fit the answer",
        6 => "a pointer is null",
        7 => "no such limits",
        8 => "the handle is closed, or open where it has to be closed",
        9 => "the arrays stand for no program",
        21 => "refusal 21: TooManyPoints",
        22 => "refusal 22: TooManyBits",
        _ => "unknown status",
    }
}

// What is told of a refusal.
fn refused(alloc: Global, place: &Place) -> Result<Vec<u8>, OutOfMemory>
    ensures { IfOk result (λ line. line.items ≡ refusal_line place.now) }
{
    let line = place.line;
    let column = place.column;
    let number = place.number;
    let name = refusal_name(number);
    let text = format!(in alloc; "{line}:{column}: refusal {number}: {name}")?;
    Ok(text.into_bytes())
}

// What a status says.
fn message(alloc: Global, status: u32, place: &Place) -> Result<Vec<u8>, OutOfMemory>
    ensures { IfOk result (λ line. line.items ≡ message_of status place.now) }
{
    if status == 1 {
        return refused(alloc, place);
    }
    status_line(status).as_bytes().to_vec(alloc)
}

/// What a status says, in one line without its end, and how long that is: of status 1 the place and the name of the refusal, as the programs
/// tell it; the place serves nothing else. Status 0: the line was written. Status 2: memory was refused. Status 5: there is too little room,
/// and the line's length alone was told.
#[unsafe(no_mangle)]
pub extern "C" fn tacflow_c_message(
    alloc: Global,
    status: u32,
    place: &Place,
    bytes: &mut [u8],
    size: &mut usize,
) -> u32
    ensures told { result ≡ 0 → HoldsList (λ line. line ≡ message_of status place.now) bytes.old bytes.new size.new }
    ensures room { result ≡ 5 → NeedsRoom (λ line. line ≡ message_of status place.now) (length bytes.old) size.new × (bytes.new ≡ bytes.old) }
    ensures memory { result ≡ 2 → (bytes.new ≡ bytes.old) × (size.new ≡ size.old) }
    ensures statuses { (result ≡ 0) ⊎ ((result ≡ 2) ⊎ (result ≡ 5)) }
{
    match message(alloc, status, place) {
        Err(_) => 2,
        Ok(line) => {
            if put_list(line.as_slice(), bytes, size) {
                0
            } else {
                5
            }
        }
    }
}
