// What parts make: the report, or lines of JSON.

ghost use Rattle.std.specs.Prelude.{◌≡◌, ◌++◌, [], IfOk, OnOk, codes, flat_map, map};
ghost use Rattle.part_texts.specs.Lines.{place as place_of};
ghost use Rattle.part_texts.specs.Merges.{accepted, against, is_there, joined, merged, missing, parts_of, report_of_parts};
ghost use Rattle.part_texts.specs.Orders.{in_order_by};
ghost use Rattle.part_texts.specs.code.ReadParts.{line_of, part_in, told_as};

use crate::OutOfMemory;
use crate::fault::{MergeFault, PartFault};
use crate::form::is_same_form;
use crate::line::PartLine;
use crate::read::{ReadPart, read_part};
use std::alloc::Global;

// Whether one of some parts has a number.
fn is_there(parts: &[ReadPart<'_>], number: u32) -> bool
    ensures { result ≡ is_there (map part_in parts.now) number }
{
    for part in parts {
        if part.heading.part == number {
            return true;
        }
    }
    false
}

// Why a part does not go with those before it.
fn against(parts: &[ReadPart<'_>], part: &ReadPart<'_>) -> Option<PartFault>
    ensures { result ≡ against (map part_in parts.now) (part_in part.now) }
{
    let Some(first) = parts.first() else {
        return None;
    };
    if !is_same_form(part.heading.form, first.heading.form) {
        return Some(PartFault::OtherForm);
    }
    if part.heading.digest != first.heading.digest || part.counts != first.counts {
        return Some(PartFault::OtherProgram);
    }
    if part.heading.count != first.heading.count {
        return Some(PartFault::OtherCount);
    }
    if is_there(parts, part.heading.part) {
        return Some(PartFault::Double);
    }
    None
}

// The part that a text is, behind others.
fn accepted<'a>(
    alloc: Global,
    parts: &[ReadPart<'a>],
    text: &'a [u8],
) -> Result<Result<ReadPart<'a>, PartFault>, OutOfMemory>
    ensures { IfOk result (λ r. told_as part_in r ≡ accepted (map part_in parts.now) text.now) }
{
    match read_part(alloc, text)? {
        Ok(part) => match against(parts, &part) {
            None => Ok(Ok(part)),
            Some(fault) => Ok(Err(fault)),
        },
        Err(fault) => Ok(Err(fault)),
    }
}

// The parts that texts are.
fn join<'a>(
    alloc: Global,
    texts: &[&'a [u8]],
) -> Result<Result<Vec<ReadPart<'a>>, MergeFault>, OutOfMemory>
    ensures { IfOk result (λ r. told_as (λ parts. map part_in parts.items) r ≡ joined [] (map (λ text. text.now) texts.now)) }
{
    let mut parts = Vec::new(alloc);
    for text in texts {
        match accepted(alloc, &parts, text)? {
            Ok(part) => parts.push(part)?,
            Err(fault) => {
                let text = parts.len();
                return Ok(Err(MergeFault::InText { text, fault }));
            }
        }
    }
    Ok(Ok(parts))
}

// Of how many parts they are.
fn parts_of(parts: &[ReadPart<'_>]) -> u32
    ensures { result ≡ parts_of (map part_in parts.now) }
{
    match parts.first() {
        Some(first) => first.heading.count,
        None => 1,
    }
}

// The first number that no part has.
fn missing(parts: &[ReadPart<'_>]) -> Option<u32>
    ensures { result ≡ missing (map part_in parts.now) }
{
    for before in 0..parts_of(parts) {
        let number = before + 1;
        if !is_there(parts, number) {
            return Some(number);
        }
    }
    None
}

// A line's place in a report.
fn place(line: &PartLine<'_>) -> u64
    ensures { result ≡ place_of (line_of line.now) }
{
    let number = 4_294_967_296 * u64::from(line.mark.section) + u64::from(line.mark.number);
    (5 * number + u64::from(line.mark.kind)) * 8_192 + u64::from(line.part)
}

// Puts the lines of a part behind others.
fn put_lines<'a>(lines: &mut Vec<PartLine<'a>>, part: &ReadPart<'a>) -> Result<(), OutOfMemory>
    ensures { OnOk result (map line_of lines.new.items ≡ map line_of lines.old.items ++ (part_in part.now).lines) }
{
    for line in &part.lines {
        lines.push(*line)?;
    }
    Ok(())
}

// The lines of all parts by their places.
fn lines_in_order<'a>(
    alloc: Global,
    parts: &[ReadPart<'a>],
) -> Result<Vec<PartLine<'a>>, OutOfMemory>
    ensures { IfOk result (λ lines. map line_of lines.items ≡ in_order_by place_of (flat_map (λ p. p.lines) (map part_in parts.now))) }
{
    let mut lines = Vec::new(alloc);
    for part in parts {
        put_lines(&mut lines, part)?;
    }
    lines.sort_by_key(|line| place(line))?;
    Ok(lines)
}

// Puts a line of a text last.
fn put_line(text: &mut Vec<u8>, line: &[u8]) -> Result<(), OutOfMemory>
    ensures { OnOk result (text.new.items ≡ text.old.items ++ (line.now ++ codes "\n")) }
{
    text.extend_from_slice(line)?;
    text.push(b'\n')?;
    Ok(())
}

// The report that parts make.
fn report(alloc: Global, parts: &[ReadPart<'_>]) -> Result<Vec<u8>, OutOfMemory>
    ensures { IfOk result (λ text. text.items ≡ report_of_parts (map part_in parts.now)) }
{
    let mut text = Vec::new(alloc);
    let Some(first) = parts.first() else {
        return Ok(text);
    };
    put_line(&mut text, first.counts)?;
    let lines = lines_in_order(alloc, parts)?;
    for line in &lines {
        put_line(&mut text, line.text)?;
    }
    Ok(text)
}

/// The report, or the lines of JSON, that the texts of its parts make, in whatever order they stand, or the first fault. Fails only where memory runs out.
///
/// The work is linear in the texts, but for what sorting their lines takes and for comparing the numbers of the parts with one another.
pub fn merge(alloc: Global, texts: &[&[u8]]) -> Result<Result<Vec<u8>, MergeFault>, OutOfMemory>
    ensures { IfOk result (λ r. told_as (λ text. text.items) r ≡ merged (map (λ text. text.now) texts.now)) }
{
    match join(alloc, texts)? {
        Ok(parts) => match missing(&parts) {
            None => Ok(Ok(report(alloc, &parts)?)),
            Some(part) => Ok(Err(MergeFault::Missing { part })),
        },
        Err(fault) => Ok(Err(fault)),
    }
}
