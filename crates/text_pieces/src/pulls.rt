// The bytes of a source, up to its end or a limit.

ghost use Rattle.std.specs.Prelude.{ℕ, List, Option, ◌≡◌, ◌≤◌, ◌<◌, ◌+◌, ◌*◌, ◌-◌, ◌^◌, ◌⊎◌, true, false, length, take, min, IfOk, OnOk};
ghost use Rattle.std.specs.Io.KnownBytes.{Consumes, IsAtEnd};
ghost use Rattle.text_pieces.specs.Devices.{faults_in};
ghost use Rattle.text_pieces.specs.Pulls.{PullsUpTo};
ghost use Rattle.text_pieces.specs.Transfers.{device_faults_in};

use crate::OutOfMemory;
use crate::device::{DeviceFault, Source};
use crate::transfer::TransferFault;
use std::alloc::Global;

// How many bytes there is room for at first: a mebibyte, and one more, which shows that a text is longer.
const FIRST: usize = 1_048_577;

// Fills a beginning of the buffer: up to the source's end, or all of it.
fn fill_buffer<S: Source>(source: &mut S, buf: &mut [u8]) -> Result<usize, DeviceFault>
    requires below { S.faults source.old < 2 ^ 32 - 1 }
    requires running { S.ended source.old ≡ false }
    ensures within { IfOk result (λ n. n ≤ length buf.new) }
    ensures bytes { IfOk result (λ n. Consumes (S.remaining source.old) (S.remaining source.new) (take n buf.new)) }
    ensures all { IfOk result (λ n. ((S.ended source.new ≡ true) × IsAtEnd (S.remaining source.new)) ⊎ (n ≡ length buf.new)) }
    ensures running { IfOk result (λ n. n ≡ length buf.new → S.ended source.new ≡ false) }
    ensures faults { S.faults source.new ≡ S.faults source.old + faults_in result }
{
    let mut filled = 0;
    while filled < buf.len() {
        let count = source.pull(&mut buf[filled..])?;
        if count == 0 {
            return Ok(filled);
        }
        filled += count;
    }
    Ok(filled)
}

// Makes a text twice as long, and no longer than this, by zeros behind it. Its block has room for no more.
fn lengthen_text(text: &mut Vec<u8>, most: usize) -> Result<(), OutOfMemory>
    requires { length text.old.items ≤ most }
    ensures kept { OnOk result (take (length text.old.items) text.new.items ≡ text.old.items) }
    ensures length { OnOk result (length text.new.items ≡ min (length text.old.items * 2) most) }
{
    let len = text.len();
    let room = len.saturating_mul(2).min(most);
    text.reserve_exact(room - len)?;
    text.resize(room, 0)
}

// Fills a text further, of which so many bytes are filled: up to the source's end, or all of it. Answers how many are filled then.
fn fill_behind<S: Source>(
    source: &mut S,
    text: &mut Vec<u8>,
    filled: usize,
) -> Result<usize, DeviceFault>
    requires below { S.faults source.old < 2 ^ 32 - 1 }
    requires running { S.ended source.old ≡ false }
    requires within { filled ≤ length text.old.items }
    ensures length { length text.new.items ≡ length text.old.items }
    ensures within { IfOk result (λ n. n ≤ length text.new.items) }
    ensures bytes { IfOk result (λ n. (before : Option (List ℕ)) → Consumes before (S.remaining source.old) (take filled text.old.items)
        → Consumes before (S.remaining source.new) (take n text.new.items)) }
    ensures all { IfOk result (λ n. ((S.ended source.new ≡ true) × IsAtEnd (S.remaining source.new)) ⊎ (n ≡ length text.new.items)) }
    ensures running { IfOk result (λ n. n ≡ length text.new.items → S.ended source.new ≡ false) }
    ensures faults { S.faults source.new ≡ S.faults source.old + faults_in result }
{
    let count = fill_buffer(source, &mut text[filled..])?;
    Ok(filled + count)
}

// Fills a beginning of the text: up to the source's end, or this many bytes. A text that is full is made longer.
fn fill_longer<S: Source>(
    source: &mut S,
    text: &mut Vec<u8>,
    most: usize,
) -> Result<usize, TransferFault>
    requires below { S.faults source.old < 2 ^ 32 - 1 }
    requires running { S.ended source.old ≡ false }
    requires within { length text.old.items ≤ most }
    requires some { 0 < most → 0 < length text.old.items }
    ensures pulled { IfOk result
        (λ n. PullsUpTo most (S.remaining source.old) (S.remaining source.new) (S.ended source.new) (take n text.new.items)) }
    ensures faults { S.faults source.new ≡ S.faults source.old + device_faults_in result }
{
    let Ok(mut filled) = fill_behind(source, text, 0) else {
        return Err(TransferFault::Device);
    };
    while filled == text.len() && filled < most {
        if lengthen_text(text, most).is_err() {
            return Err(TransferFault::OutOfMemory);
        }
        let Ok(longer) = fill_behind(source, text, filled) else {
            return Err(TransferFault::Device);
        };
        filled = longer;
    }
    Ok(filled)
}

/// Pulls up to the source's end, or this many bytes. The block has room for 1,048,577 of them at first. Each time it is full, and the
/// source has not ended, it is made twice as large, and never larger than for this many.
///
/// The condition: the source has not ended, and its count of faults is below `u32::MAX`.
///
/// - `OutOfMemory`: memory was refused: the first block, and nothing was pulled, or a larger one, and what was pulled is lost.
/// - `Device`: a pull was answered by a fault. What was pulled is lost.
pub fn pull_all<S: Source>(
    alloc: Global,
    source: &mut S,
    most: usize,
) -> Result<Vec<u8>, TransferFault>
    requires below { S.faults source.old < 2 ^ 32 - 1 }
    requires running { S.ended source.old ≡ false }
    ensures pulled { IfOk result (λ text. PullsUpTo most (S.remaining source.old) (S.remaining source.new) (S.ended source.new) text.items) }
    ensures faults { S.faults source.new ≡ S.faults source.old + device_faults_in result }
{
    let Ok(mut text) = vec![in alloc; 0u8; most.min(FIRST)] else {
        return Err(TransferFault::OutOfMemory);
    };
    let filled = fill_longer(source, &mut text, most)?;
    text.truncate(filled);
    Ok(text)
}
