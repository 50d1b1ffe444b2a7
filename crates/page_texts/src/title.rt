// The line of a page's title.

ghost use Rattle.std.specs.Prelude.{◌≡◌, IfOk, map, option_map};
ghost use Rattle.page_texts.specs.Pages.{shown_sign, title_line, title_lines};

use crate::OutOfMemory;
use std::alloc::Global;
use text_pieces::push_quoted;

fn shown_sign(byte: u8) -> u8
    ensures { result ≡ shown_sign byte }
{
    if byte < 32 { b' ' } else { byte }
}

// A title as it is shown.
fn shown_title(alloc: Global, title: &[u8]) -> Result<Vec<u8>, OutOfMemory>
    ensures { IfOk result (λ shown. shown.items ≡ map shown_sign title.now) }
{
    let mut shown = Vec::new(alloc);
    for byte in title {
        shown.push(shown_sign(*byte))?;
    }
    Ok(shown)
}

// The line of a title.
fn title_line(alloc: Global, title: &[u8]) -> Result<Vec<u8>, OutOfMemory>
    ensures { IfOk result (λ line. line.items ≡ title_line title.now) }
{
    let shown = shown_title(alloc, title)?;
    let mut line = b"{\"type\":\"page\",\"title\":".to_vec(alloc)?;
    push_quoted(&mut line, &shown)?;
    line.extend_from_slice(b"}\n")?;
    Ok(line)
}

/// The line of a title, where there is one. Fails only where memory runs out.
pub(crate) fn title_lines(alloc: Global, title: Option<&[u8]>) -> Result<Vec<u8>, OutOfMemory>
    ensures { IfOk result (λ line. line.items ≡ title_lines (option_map (λ t. t.now) title.entry)) }
{
    match title {
        Some(title) => title_line(alloc, title),
        None => Ok(Vec::new(alloc)),
    }
}
