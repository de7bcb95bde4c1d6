ghost use Rattle.std.specs.Prelude.{◌≡◌, ◌<◌, IfOk, string_bytes};
ghost use Rattle.run_report.specs.Faults.{fault_text, fault_line, axis_letter, HasAxis, IsBadInput};
ghost use Rattle.run_report.specs.RefusedRows.{refused_rest};
ghost use Rattle.run_report.specs.declared.fault.Fault.TheVariants.{Output, Memory};

use crate::fault::Fault;
use cube_math::Cause;
use std::alloc::{AllocError, Global};

/// The line for the error stream, with its line feed.
pub fn fault_line(alloc: Global, fault: &Fault) -> Result<Vec<u8>, AllocError>
    requires { HasAxis fault.now }
    ensures { IfOk result (λ line. line.items ≡ fault_line fault.now) }
{
    let text = text(alloc, fault)?;
    let line = format!(in alloc; "simlod: {text}\n")?;
    Ok(line.into_bytes())
}

/// The line of an output that could not be written, which takes no memory.
pub fn output_fault_line() -> &'static [u8]
    ensures { result.now ≡ fault_line Output }
{
    b"simlod: output fault\n"
}

/// The line of a run that found no memory, which takes none itself.
pub fn out_of_memory_line() -> &'static [u8]
    ensures { result.now ≡ fault_line Memory }
{
    b"simlod: out of memory\n"
}

/// The text of a fault, without the program's name.
fn text(alloc: Global, fault: &Fault) -> Result<String, AllocError>
    requires { HasAxis fault.now }
    ensures { IfOk result (λ text. string_bytes text ≡ fault_text fault.now) }
{
    match fault {
        Fault::Output => format!(in alloc; "output fault"),
        Fault::Command => format!(in alloc; "usage: command"),
        Fault::Word { at } => format!(in alloc; "usage: word {at}"),
        Fault::Options => format!(in alloc; "usage: options"),
        Fault::Value { name } => format!(in alloc; "usage: value of --{name}"),
        Fault::Pixels { n } => format!(in alloc; "usage: {n} pixels exceed 50000000"),
        Fault::NoFile { name } => format!(in alloc; "no file {name}"),
        Fault::ReadFault { name } => format!(in alloc; "read fault in {name}"),
        Fault::TooLong { name } => {
            format!(in alloc; "limit: {name} is longer than 1000000000 bytes")
        }
        Fault::Axis { axis, span } => {
            let letter = axis_letter(*axis);
            format!(in alloc; "limit: axis {letter} spans {span}")
        }
        Fault::Batches => format!(in alloc; "limit: batches"),
        Fault::Batch { row } => {
            let input = row.input;
            let rest = refused_rest(alloc, &row.cause)?;
            format!(in alloc; "limit: batch {input} {rest}")
        }
        Fault::Memory => format!(in alloc; "out of memory"),
        _ => bad_input_text(alloc, fault),
    }
}

/// The text of a fault in the bytes of a file.
fn bad_input_text(alloc: Global, fault: &Fault) -> Result<String, AllocError>
    requires { IsBadInput fault.now }
    ensures { IfOk result (λ text. string_bytes text ≡ fault_text fault.now) }
{
    match fault {
        Fault::Fields { name, line, n } => format!(in alloc; "{name}: line {line}: {n} fields"),
        Fault::Number { name, line, field } => {
            format!(in alloc; "{name}: line {line} field {field}: not a number")
        }
        Fault::Range { name, line, field } => {
            format!(in alloc; "{name}: line {line} field {field}: out of range")
        }
        Fault::NotLas { name } => format!(in alloc; "{name}: not a LAS file"),
        Fault::HeaderShort { name, have } => format!(in alloc; "{name}: header ends at {have}"),
        Fault::Version { name, major, minor } => {
            format!(in alloc; "{name}: version {major}.{minor}")
        }
        Fault::Compressed { name, byte } => {
            format!(in alloc; "{name}: compressed points, format {byte}")
        }
        Fault::Format { name, byte } => format!(in alloc; "{name}: point format {byte}"),
        Fault::Length { name, have, need } => {
            format!(in alloc; "{name}: record length {have}, need {need}")
        }
        Fault::Start {
            name,
            offset,
            header,
        } => { format!(in alloc; "{name}: points start at {offset}, header {header}") }
        Fault::PointsShort { name, have, need } => {
            format!(in alloc; "{name}: {have} bytes, need {need}")
        }
        Fault::Frames { name, first } => {
            format!(in alloc; "{name}: scales or offsets differ from {first}")
        }
        Fault::Schedule { name, at } => format!(in alloc; "{name}: schedule byte {at}"),
        _ => unreachable!(),
    }
}

/// `x`, `y` or `z`.
fn axis_letter(axis: u8) -> char
    requires { axis < 3 }
    ensures { result ≡ axis_letter axis }
{
    char::from(b'x' + axis)
}

/// What follows the input number of a refused batch.
fn refused_rest(alloc: Global, cause: &Cause) -> Result<String, AllocError>
    ensures { IfOk result (λ rest. string_bytes rest ≡ refused_rest cause.now) }
{
    match cause {
        Cause::Outside { at } => format!(in alloc; "outside {at}"),
        Cause::Points {
            at,
            admitted,
            n,
            most,
        } => { format!(in alloc; "points {at} {admitted} {n} {most}") }
        Cause::Chunks {
            at,
            need,
            free,
            held,
        } => { format!(in alloc; "chunks {at} {need} {free} {held}") }
        Cause::Nodes { at, need, most } => format!(in alloc; "nodes {at} {need} {most}"),
    }
}

#[cfg(test)]
mod tests;
