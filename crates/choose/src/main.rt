// Reads a record and a list of blocks from standard input and prints refusal, place and count of the choice.
//
// What is chosen for an input, wherever it is cut into pieces, is proved in `block_list` (`RunChooses`); here it is proved that the program is safe
// and ends. No contract says what the system moves, so it is assumed that `read` puts the next bytes of the input first in the
// buffer that it is lent and returns their number, that `write_all` hands on the bytes that it is lent, and that both return.
#![tactic(auto)]

use block_list::Input;
use std::fmt;
use std::io::Read;

// How much is held at most. What is kept leaves room to read.
const INPUT: usize = 16384;

// The text of three numbers fits.
const OUTPUT: usize = 64;

// What ends the program before it has answered.
#[derive(Clone, Copy, Debug, PartialEq, Eq)]
enum Failure {
    Read,
    Write,
}

impl fmt::Display for Failure {
    fn fmt<W: fmt::Write>(&self, f: &mut fmt::Formatter<W>) -> fmt::Result {
        f.write_str(match self {
            Failure::Read => "cannot read standard input",
            Failure::Write => "cannot write standard output",
        })
    }
}

// Reads behind the bytes held. Whether there may be more to read.
fn turn<I: Read>(reader: &mut I, input: &mut Input<'_>) -> Result<bool, Failure> {
    let count = reader
        .read(&mut input.buffer[input.held..])
        .map_err(|_| Failure::Read)?;
    input.held += count;
    input.keep();
    Ok(count > 0)
}

// Nothing says that an input ends, so the turns are counted, up to a number that no run reaches.
fn run<R: Print, I: Read>(rt: &R, reader: &mut I, input: &mut Input<'_>) -> Result<(), Failure> {
    for _ in 0..u64::MAX {
        if !turn(reader, input)? {
            break;
        }
    }
    let mut output = [0u8; OUTPUT];
    let written = input.answer(&mut output);
    rt.write_all(&output[..written]).map_err(|_| Failure::Write)
}

fn main(rt: HostRuntime) {
    let mut buffer = [0u8; INPUT];
    let mut input = Input {
        buffer: &mut buffer,
        held: 0,
    };
    if let Err(failure) = run(&rt, &mut rt.stdin(), &mut input) {
        // Where that cannot be written either, there is nothing left to do.
        let _ = eprintln!(rt; "choose: {failure}");
    }
}
