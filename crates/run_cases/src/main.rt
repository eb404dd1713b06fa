// The exported calls on the cases that stdin spells out, a line of output for each. stdin and stdout are what models/make.py writes:
// the answers are those of models in Python, written from the papers, and of the published Rust.
//
// The lines of stdin, numbers in decimal and bytes in hex:
//   path SIZE BYTES              a path of so many bytes: these, then zeros
//   itinerary SIZE BYTES         an itinerary
//   numbers SIZE BYTES           the interface numbers of a table, two bytes each
//   states SIZE BYTES            and their states
//   key SIZE BYTES               the forwarding key
//   edit NAME AT BYTES           other bytes in one of these
//   record INDEX BYTES           the first bytes of this record of the itinerary
//   # TEXT                       nothing
//   call NAME EDITION FIRST SECOND IGNORE_MACS LABEL
//                                makes the call on a copy of the path
// FIRST and SECOND are the interface and the time for step, ingress and egress, earliest and latest for journey, the hop for index;
// reverse and expiration look at neither. IGNORE_MACS is 0 or 1.
//
// A line of output is what the call's line says, the answer by its number, and of the bytes left those that are not what they were.
#![tactic(auto)]

mod call;
mod command;
mod given;
mod print;

ghost use Rattle.std.specs.Prelude.{◌≤◌, length, IfOk};

use call::Call;
use command::Command;
use given::{Given, MAX_PATH_BYTES};
use print::{Answer, Left};
use std::io;
use std::io::{Read, Write};

// A line and what is given stand in fixed memory: by `Vec` and `String` the allocator's three calls would be assumed for this program.
const MAX_LINE_BYTES: usize = 4096;

// A line's end where the input is at its own.
fn read_byte(input: &mut impl Read) -> io::Result<u8> {
    let mut byte = [0];
    if input.read(&mut byte)? == 0 {
        return Ok(b'\n');
    }
    Ok(byte[0])
}

// Reads a line, as much of it as there is room for, without its end; how many bytes it has.
fn read_line(input: &mut impl Read, line: &mut [u8]) -> io::Result<usize>
    ensures { IfOk result (λ size. size ≤ length line.new) }
{
    for at in 0..line.len() {
        let byte = read_byte(input)?;
        if byte == b'\n' {
            return Ok(at);
        }
        line[at] = byte;
    }
    Ok(line.len())
}

fn run_line(output: &mut impl Write, line: &[u8], given: &mut Given) -> io::Result<()> {
    match Command::from(line) {
        Command::Comment => {}
        Command::Fill { part, size, digits } => given.fill(part, size, digits),
        Command::Edit { at, digits } => given.edit(at, digits),
        Command::Call(call) => run_call(output, given, call)?,
    }
    Ok(())
}

fn run_call(output: &mut impl Write, given: &Given, call: Call<'_>) -> io::Result<()> {
    output.write_all(call.words)?;
    let mut after = [0; MAX_PATH_BYTES];
    given.copy_path(&mut after);
    let answer = Answer(call.make(given, &mut after[..given.path_len()]));
    let left = Left {
        before: given.path(),
        after: &after,
    };
    writeln!(output, ": {answer}, left{left}")
}

// At an empty line, or where the input ends, it's over.
fn run(
    input: &mut impl Read,
    output: &mut impl Write,
    line: &mut [u8],
    given: &mut Given,
) -> io::Result<()> {
    for _ in 0..1_000_000 {
        let size = read_line(input, line)?;
        if size == 0 {
            return Ok(());
        }
        run_line(output, &line[..size], given)?;
    }
    Ok(())
}

fn main(rt: HostRuntime) -> io::Result<()> {
    run(
        &mut rt.reader(),
        &mut io::writer(&rt),
        &mut [0; MAX_LINE_BYTES],
        &mut Given::new(),
    )
}
