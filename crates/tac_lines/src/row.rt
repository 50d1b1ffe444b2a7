// The tokens of a line.

ghost use Rattle.std.specs.Prelude.{◌≡◌, ◌-◌, ◌^◌, ◌<◌, ◌≤◌, ◌++◌, ℕ, List, [], ◌∷◌, zero, Some, length, slice_range, IfErr, IfOk, IfSome, OnOk};
ghost use Rattle.std.specs.Prelude.{vec_len};
ghost use Rattle.tac_lines.specs.LineFaults.{first_by_place, row_faults};
ghost use Rattle.tac_lines.specs.Tokens.{row_from};
ghost use Rattle.tac_lines.specs.code.Lexed.{IfFault};
ghost use Rattle.tac_lines.specs.code.Views.{tokens_view};

use crate::OutOfMemory;
use crate::fault::{Fault, Stop};
use crate::line::{behind_labels, row_fault, stop_of};
use crate::piece::front;
use crate::token::Token;

/// After so many tokens a line is judged before the rest of it is read, and then each time that it has
/// twice as many. The number is even, so that a label is not cut off from its colon.
const FIRST_JUDGED: usize = 32;

/// The first fault of a line by its tokens up to the place `at`, where what follows cannot change it.
fn early_fault(inside: bool, text: &[u8], row: &[Token], at: u32) -> Option<Fault>
    ensures { IfSome result (λ f. (rest : List ℕ) → first_by_place
        (row_faults inside (record { tokens = tokens_view text.now row.now ++ (row_from at zero rest).tokens; bad = (row_from at zero rest).bad }))
        ≡ Some f) }
{
    if stop_of(row) < at || behind_labels(row).len() == 1 {
        return None;
    }
    match row_fault(inside, text, row, Some(at)) {
        None => None,
        Some(fault) => { if fault.place < at { Some(fault) } else { None } }
    }
}

/// Puts a token last.
fn push_token(row: &mut Vec<Token>, token: Token) -> Result<(), OutOfMemory>
    ensures { OnOk result (row.new.items ≡ row.old.items ++ token ∷ []) }
{
    row.push(token)?;
    Ok(())
}

/// Puts the tokens of the line `start..stop` of a text, up to its first bad byte, in the place of
/// `row`'s, and answers where that byte is. Fails with the line's first fault where that is told
/// before the line is read.
pub fn read_row(
    inside: bool,
    row: &mut Vec<Token>,
    text: &[u8],
    start: usize,
    stop: usize,
) -> Result<Option<u32>, Stop>
    requires order { start ≤ stop }
    requires within { stop ≤ length text.now }
    requires small { length text.now < 2 ^ 32 }
    ensures row { IfOk result
        (λ bad. row_from start 0 (slice_range text.now start stop) ≡ record { tokens = tokens_view text.now row.new.items; bad = bad }) }
    ensures count { OnOk result (vec_len row.new ≤ stop - start) }
    ensures fault { IfErr result (IfFault (λ f. first_by_place (row_faults inside (row_from start 0 (slice_range text.now start stop))) ≡ Some f)) }
{
    row.clear();
    let mut at = start;
    let mut judged = FIRST_JUDGED;
    while at < stop {
        if row.len() >= judged {
            if let Some(fault) = early_fault(inside, text, row, at as u32) {
                return Err(Stop::Fault(fault));
            }
            judged = judged.saturating_mul(2);
        }
        match front(&text[at..stop]) {
            None => return Ok(Some(at as u32)),
            Some((len, kind)) => {
                if let Some(kind) = kind {
                    push_token(
                        row,
                        Token {
                            kind,
                            start: at as u32,
                            stop: (at + len) as u32,
                        },
                    )?;
                }
                at += len;
            }
        }
    }
    Ok(None)
}
