// What is told of a page or a picture that is large.

ghost use Rattle.std.specs.Prelude.{◌≡◌, ◌++◌, IfOk, codes, decimal, nat_lt};
ghost use Rattle.view_commands.specs.Lines.{large_page_line, slow_page_line, unopened_page_line};

use flow_runs::OutOfMemory;
use std::alloc::Global;

/// A page of more bytes takes seconds to open.
pub const SLOW_PAGE: u64 = 15_000_000;

// A browser's longest string has some 536 million signs.
const LONGEST: u64 = 500_000_000;

fn slow_page_line(alloc: Global, megabytes: u64) -> Result<Vec<u8>, OutOfMemory>
    ensures { IfOk result (λ line. line.items ≡ slow_page_line megabytes) }
{
    let line = format!(in alloc;
        "tacview: {megabytes} MB, a page that takes seconds to open: --procedure NAME shows one procedure, --facts LIST fewer facts\n"
    )?;
    Ok(line.into_bytes())
}

fn unopened_page_line(alloc: Global, megabytes: u64) -> Result<Vec<u8>, OutOfMemory>
    ensures { IfOk result (λ line. line.items ≡ unopened_page_line megabytes) }
{
    let line = format!(in alloc;
        "tacview: {megabytes} MB, which no browser opens: --procedure NAME shows one procedure, --facts LIST fewer facts\n"
    )?;
    Ok(line.into_bytes())
}

/// The line that tells how large a page of so many bytes is, and how it is made smaller. Fails only where memory runs out.
pub fn large_page_line(alloc: Global, bytes: u64) -> Result<Vec<u8>, OutOfMemory>
    ensures { IfOk result (λ line. line.items ≡ large_page_line bytes) }
{
    let megabytes = bytes / 1_000_000;
    if bytes > LONGEST {
        unopened_page_line(alloc, megabytes)
    } else {
        slow_page_line(alloc, megabytes)
    }
}

/// What is told of a picture with so many points, in one line. Fails only where memory runs out.
pub fn size_words(alloc: Global, points: u32) -> Result<Vec<u8>, OutOfMemory>
    ensures { IfOk result (λ text. text.items ≡ codes "tacview: " ++ (decimal points
        ++ codes " points are many for a picture: --procedure NAME draws one procedure, --format html makes a page\n")) }
{
    let text = format!(in alloc;
        "tacview: {points} points are many for a picture: --procedure NAME draws one procedure, --format html makes a page\n"
    )?;
    Ok(text.into_bytes())
}

/// What is told of a call graph with so many procedures, in one line. Fails only where memory runs out.
pub fn calls_words(alloc: Global, procedures: u32) -> Result<Vec<u8>, OutOfMemory>
    ensures { IfOk result (λ text. text.items ≡ codes "tacview: " ++ (decimal procedures
        ++ codes " procedures are many for a picture\n")) }
{
    let text = format!(in alloc; "tacview: {procedures} procedures are many for a picture\n")?;
    Ok(text.into_bytes())
}

/// Whether so many points, or procedures, are too many for a picture: more than 400.
pub fn is_large(points: u32) -> bool
    ensures { result ≡ nat_lt 400 points }
{
    points > 400
}
