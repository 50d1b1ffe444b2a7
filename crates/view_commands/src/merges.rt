// The report, or the lines of JSON, that files with parts make.

ghost use Rattle.std.specs.Prelude.{◌≡◌, [], IfOk, map, option_map, slice_index_or};
ghost use Rattle.view_commands.specs.Merges.{fault_words, file_line, files_to_merge, merge_line, merged_files};
ghost use Rattle.view_commands.specs.code.Merged.{bytes_of};

use crate::lines::push_escaped;
use flow_runs::{OutOfMemory, line_with};
use part_texts::{MergeFault, PartFault, merge};
use std::alloc::Global;

/// The names of the files behind `--merge`, where that is the first word behind the program's name.
pub fn files_to_merge<'a>(words: &'a [&'a str]) -> Option<&'a [&'a str]>
    ensures { option_map (λ files. map (λ name. name.now) files.now) result ≡ files_to_merge (map (λ word. word.now) words.now) }
{
    let (_, words) = words.split_first()?;
    let (word, files) = words.split_first()?;
    if *word == "--merge" {
        Some(files)
    } else {
        None
    }
}

// Why a file is none of the parts, in words.
fn fault_words<'a>(fault: PartFault) -> &'a [u8]
    ensures { result.now ≡ fault_words fault }
{
    match fault {
        PartFault::NoPart => b"is no part of a report",
        PartFault::CutShort => b"is cut short",
        PartFault::OtherForm => b"is a part in another form than the first",
        PartFault::OtherProgram => b"is a part of another program's report",
        PartFault::OtherCount => b"is one of another number of parts",
        PartFault::Double => b"is a part that a file before it is",
    }
}

/// The line that tells something of a file. Fails only where memory runs out.
pub fn file_line(alloc: Global, name: &str, words: &[u8]) -> Result<Vec<u8>, OutOfMemory>
    ensures { IfOk result (λ line. line.items ≡ file_line name.now words.now) }
{
    let mut rest = b": ".to_vec(alloc)?;
    push_escaped(&mut rest, name.as_bytes())?;
    rest.extend_from_slice(b": ")?;
    rest.extend_from_slice(words)?;
    rest.extend_from_slice(b"\n")?;
    line_with(alloc, "tacview", &rest)
}

// The name of this number.
fn name_at<'a>(names: &[&'a str], number: usize) -> &'a str
    ensures { result.now ≡ slice_index_or (map (λ name. name.now) names.now) number [] }
{
    match names.get(number) {
        Some(name) => *name,
        None => "",
    }
}

// The line of what is wrong.
fn merge_line(alloc: Global, names: &[&str], fault: MergeFault) -> Result<Vec<u8>, OutOfMemory>
    ensures { IfOk result (λ line. line.items ≡ merge_line (map (λ name. name.now) names.now) fault) }
{
    match fault {
        MergeFault::InText { text, fault } => {
            file_line(alloc, name_at(names, text), fault_words(fault))
        }
        MergeFault::Missing { part } => {
            let rest = format!(in alloc; ": no file is part {part}\n")?;
            line_with(alloc, "tacview", rest.as_bytes())
        }
    }
}

/// The report, or the lines of JSON, that the texts of files make, in whatever order they stand, or the line that tells the first fault with the name of its file.
/// Fails only where memory runs out.
pub fn merge_files(
    alloc: Global,
    names: &[&str],
    texts: &[&[u8]],
) -> Result<Result<Vec<u8>, Vec<u8>>, OutOfMemory>
    ensures { IfOk result (λ r. bytes_of r ≡ merged_files (map (λ name. name.now) names.now) (map (λ text. text.now) texts.now)) }
{
    match merge(alloc, texts)? {
        Ok(report) => Ok(Ok(report)),
        Err(fault) => Ok(Err(merge_line(alloc, names, fault)?)),
    }
}
