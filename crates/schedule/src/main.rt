// Reads a schedule from standard input and prints the result line of each of its lines.
//
// Which text answers which bytes is proved in `lines`, wherever the input is cut into blocks; here it is proved that the program is safe
// and ends. No contract says what the system moves, so it is assumed that `read` puts the next bytes of the input first in the
// buffer that it is lent and returns their number, that `write_all` hands on the bytes that it is lent, and that both return.
#![tactic(auto)]

use lines::Input;
use std::fmt;
use std::io::Read;

// How much is read at once. What is answered of it is written at once too, where a result line is at most twice as long as its line.
const INPUT: usize = 131072;

const OUTPUT: usize = 262144;

// What ends the program before its input does.
#[derive(Clone, Copy, Debug, PartialEq, Eq)]
enum Failure {
    Read,
    Write,
}

impl fmt::Display for Failure {
    fn fmt<W: fmt::Write>(&self, f: &mut fmt::Formatter<W>) -> fmt::Result {
        f.write_str(match self {
            Failure::Read => "cannot read standard input",
            Failure::Write => "cannot write standard output",
        })
    }
}

fn write(rt: &impl Print, text: &[u8]) -> Result<(), Failure> {
    rt.write_all(text).map_err(|_| Failure::Write)
}

// Answers the ended lines among the bytes held.
fn answer_all(
    rt: &impl Print,
    input: &mut Input<'_>,
    output: &mut [u8; OUTPUT],
) -> Result<(), Failure> {
    loop {
        let progress = input.answer(output);
        write(rt, &output[..progress.written])?;
        if !progress.more {
            return Ok(());
        }
    }
}

// Reads behind the bytes held, and answers. Whether there may be more to read.
fn turn<R: Print, I: Read>(
    rt: &R,
    reader: &mut I,
    input: &mut Input<'_>,
    output: &mut [u8; OUTPUT],
) -> Result<bool, Failure> {
    let count = reader
        .read(&mut input.buffer[input.held..])
        .map_err(|_| Failure::Read)?;
    if count == 0 {
        let written = lines::answer_last(&input.buffer[..input.held], output);
        write(rt, &output[..written])?;
        return Ok(false);
    }
    input.held += count;
    answer_all(rt, input, output)?;
    Ok(true)
}

// Nothing says that an input ends, so the turns are counted, up to a number that no run reaches.
fn run<R: Print, I: Read>(
    rt: &R,
    reader: &mut I,
    input: &mut Input<'_>,
    output: &mut [u8; OUTPUT],
) -> Result<(), Failure> {
    for _ in 0..u64::MAX {
        if !turn(rt, reader, input, output)? {
            break;
        }
    }
    Ok(())
}

fn main(rt: HostRuntime) {
    let mut buffer = [0u8; INPUT];
    let mut output = [0u8; OUTPUT];
    let mut input = Input::new(&mut buffer, 0);
    if let Err(failure) = run(&rt, &mut rt.stdin(), &mut input, &mut output) {
        // Where that cannot be written either, there is nothing left to do.
        let _ = eprintln!(rt; "schedule: {failure}");
    }
}
