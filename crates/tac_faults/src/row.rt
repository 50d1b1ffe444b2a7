// The tokens of a line.

ghost use Rattle.std.specs.Prelude.{◌≡◌, ◌≤◌, ◌<◌, ◌^◌, ◌++◌, [], ◌∷◌, length, slice_range, IfOk, IfSome, OnOk};
ghost use Rattle.tac_lines.specs.Tokens.{row_from};
ghost use Rattle.tac_lines.specs.code.Views.{tokens_view};

use tac_lines::{OutOfMemory, Token, front};

/// Puts a token last.
fn push_token(row: &mut Vec<Token>, token: Token) -> Result<(), OutOfMemory>
    ensures { OnOk result (row.new.items ≡ row.old.items ++ token ∷ []) }
{
    row.push(token)?;
    Ok(())
}

/// Puts the tokens of the line `start..stop` of a text, up to its first bad byte, in the place of
/// `row`'s, and answers where that byte is.
pub fn read_row(
    row: &mut Vec<Token>,
    text: &[u8],
    start: usize,
    stop: usize,
) -> Result<Option<u32>, OutOfMemory>
    requires order { start ≤ stop }
    requires within { stop ≤ length text.now }
    requires small { length text.now < 2 ^ 32 }
    ensures within { IfOk result (λ bad. IfSome bad (λ place. place < stop)) }
    ensures row { IfOk result
        (λ bad. row_from start 0 (slice_range text.now start stop) ≡ record { tokens = tokens_view text.now row.new.items; bad = bad }) }
{
    row.clear();
    let mut at = start;
    while at < stop {
        match front(&text[at..stop]) {
            None => return Ok(Some(at as u32)),
            Some((len, kind)) => {
                if let Some(kind) = kind {
                    push_token(
                        row,
                        Token {
                            kind,
                            start: at as u32,
                            stop: (at + len) as u32,
                        },
                    )?;
                }
                at += len;
            }
        }
    }
    Ok(None)
}
