// The line on standard error that tells a fault.

ghost use Rattle.std.specs.Prelude.{◌≡◌, ◌<◌, ◌++◌, IfOk, OnOk, option_map};
ghost use Rattle.std.specs.String.{string_bytes};
ghost use Rattle.view_commands.specs.Lines.{escaped, escaped_byte, hex_digit, is_plain, fault_line, large_line, large_procedure_line, missing_line};
ghost use Rattle.view_commands.specs.Lines.{no_procedure_line, no_remark_line};

use flow_runs::{Fault, OutOfMemory, fault_line, line_with};
use std::alloc::Global;
use view_words::Asked;

fn is_plain(byte: u8) -> bool
    ensures { result ≡ is_plain byte }
{
    byte > 31 && byte < 127 && byte != b'\\'
}

fn hex_digit(n: u8) -> u8
    requires { n < 16 }
    ensures { result ≡ hex_digit n }
{
    if n < 10 { b'0' + n } else { b'a' - 10 + n }
}

// Puts a byte behind what is there, or what stands for it.
fn push_escaped_byte(text: &mut Vec<u8>, byte: u8) -> Result<(), OutOfMemory>
    ensures { OnOk result (text.new.items ≡ text.old.items ++ escaped_byte byte) }
{
    if is_plain(byte) {
        text.extend_from_slice(&[byte])
    } else {
        text.extend_from_slice(&[b'\\', b'x', hex_digit(byte / 16), hex_digit(byte % 16)])
    }
}

/// Puts bytes behind what is there, each as itself or as what stands for it.
pub(crate) fn push_escaped(text: &mut Vec<u8>, bytes: &[u8]) -> Result<(), OutOfMemory>
    ensures { OnOk result (text.new.items ≡ text.old.items ++ escaped bytes.now) }
{
    for byte in bytes {
        push_escaped_byte(text, *byte)?;
    }
    Ok(())
}

// The line that tells of something that is not there, by its name.
fn missing_line(alloc: Global, words: &[u8], name: &str) -> Result<Vec<u8>, OutOfMemory>
    ensures { IfOk result (λ line. line.items ≡ missing_line words.now name.now) }
{
    let mut rest = words.to_vec(alloc)?;
    push_escaped(&mut rest, name.as_bytes())?;
    rest.extend_from_slice(b"\n")?;
    line_with(alloc, "tacview", &rest)
}

// The line that tells that a procedure is not there, with its name where there is one.
fn no_procedure_line(alloc: Global, name: Option<&String>) -> Result<Vec<u8>, OutOfMemory>
    ensures { IfOk result (λ line. line.items ≡ no_procedure_line (option_map (λ n. string_bytes n.now) name.entry)) }
{
    match name {
        Some(name) => missing_line(alloc, b": the program has no procedure ", name.as_str()),
        None => fault_line(alloc, "tacview", &Fault::NoProcedure),
    }
}

// The line that tells that the procedure of this name has too many points for its rounds.
fn large_line(alloc: Global, name: &str) -> Result<Vec<u8>, OutOfMemory>
    ensures { IfOk result (λ line. line.items ≡ large_line name.now) }
{
    let mut rest = b": the procedure ".to_vec(alloc)?;
    push_escaped(&mut rest, name.as_bytes())?;
    rest.extend_from_slice(b" has more than 200 points: --steps shows at most 200\n")?;
    line_with(alloc, "tacview", &rest)
}

// The same, with its name where there is one.
fn large_procedure_line(alloc: Global, name: Option<&String>) -> Result<Vec<u8>, OutOfMemory>
    ensures { IfOk result (λ line. line.items ≡ large_procedure_line (option_map (λ n. string_bytes n.now) name.entry)) }
{
    match name {
        Some(name) => large_line(alloc, name.as_str()),
        None => fault_line(alloc, "tacview", &Fault::LargeProcedure),
    }
}

// The line that tells that a remark is not there, with its place where there is one.
fn no_remark_line(alloc: Global, place: Option<&String>) -> Result<Vec<u8>, OutOfMemory>
    ensures { IfOk result (λ line. line.items ≡ no_remark_line (option_map (λ n. string_bytes n.now) place.entry)) }
{
    match place {
        Some(place) => missing_line(
            alloc,
            b": no variable may be used before it is set at ",
            place.as_str(),
        ),
        None => fault_line(alloc, "tacview", &Fault::NoRemark),
    }
}

/// The line on standard error that tells a fault, with its line feed; where a procedure or a remark is not there, or a procedure has too many
/// points for its rounds, with the name that was asked for, in which each byte that is no printed sign of ASCII, or is a backslash, is told
/// as `\x` and two hexadecimal digits. Fails only where memory runs out.
pub fn line_of(alloc: Global, asked: &Asked, fault: &Fault) -> Result<Vec<u8>, OutOfMemory>
    ensures { IfOk result (λ line. line.items ≡ fault_line (option_map string_bytes asked.now.procedure) (option_map string_bytes asked.now.because)
        fault.now) }
{
    match fault {
        Fault::NoProcedure => no_procedure_line(alloc, asked.procedure.as_ref()),
        Fault::LargeProcedure => large_procedure_line(alloc, asked.procedure.as_ref()),
        Fault::NoRemark => no_remark_line(alloc, asked.because.as_ref()),
        _ => fault_line(alloc, "tacview", fault),
    }
}
