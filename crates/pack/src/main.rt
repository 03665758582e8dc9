// Packs the lines of standard input into blocks of 512 bytes on standard output. A line that no block can hold ends it, with the lines before
// it written.
//
// What each call packs, and that such calls make up the archive of the input, wherever it is cut into pieces, is proved in `archive`
// (`PackIsStep`, `RunWritesArchive`); here it is proved that the program is safe and ends. That it calls so, and writes the blocks of each call,
// is to be read here. No contract says what the system moves, so it is assumed that `read` puts the next bytes of the input first in the
// buffer that it is lent and returns their number, that `write_all` hands on the bytes that it is lent, and that both return.
#![tactic(auto)]

ghost use Rattle.std.specs.Prelude.{◌≡◌, ◌+◌, ◌≤◌, length};

use archive::{BLOCK, CAPACITY};
use basis::Refusal;
use std::fmt;
use std::io::Read;
use std::process::ExitCode;

// How much is held at most.
const INPUT: usize = 65536;

// Two blocks that follow one another hold more than 508 bytes together, so what is held nearly always fits. Where it does not, the rest is
// packed in another turn.
const OUTPUT: usize = 131072;

// Why the program ends without having packed its whole input. Lines are counted from 1 on.
#[derive(Clone, Copy, Debug, PartialEq, Eq)]
enum Failure {
    Read,
    Write,
    LineTooLong { line: u64 },
    LineWithoutEnd { line: u64 },
}

impl fmt::Display for Failure {
    fn fmt<W: fmt::Write>(&self, f: &mut fmt::Formatter<W>) -> fmt::Result {
        let refusal = u64::from(Refusal::TextNotStored);
        match self {
            Failure::Read => f.write_str("cannot read standard input"),
            Failure::Write => f.write_str("cannot write standard output"),
            Failure::LineTooLong { line } => write!(
                f,
                "refusal {refusal}: line {line} is longer than {CAPACITY} bytes with its end"
            ),
            Failure::LineWithoutEnd { line } => {
                write!(f, "refusal {refusal}: line {line} has no end")
            }
        }
    }
}

// The bytes that are read and not packed yet: they stand first in a buffer.
#[derive(Drop)]
struct Input<'a> {
    buffer: &'a mut [u8],
    held: usize,
    // How many lines are packed.
    lines: u64,
    ghost within: { held ≤ length buffer.now },
}

impl<'a> Input<'a> {
    // Packs what is settled, as far as `output` has room for it.
    fn pack(&mut self, complete: bool, output: &mut [u8; OUTPUT]) -> archive::Packed
        ensures taken { self.old.held ≡ self.new.held + result.taken }
        ensures blocks { result.blocks ≤ 256 }
    {
        let packed = archive::pack_held(self.buffer, self.held, complete, output);
        self.held -= packed.taken;
        self.lines = self.lines.saturating_add(packed.lines as u64);
        packed
    }

    // Called where `pack` took nothing: a line that cannot be stored stands first, or fewer than 508 bytes are held and there is room to read.
    fn check_rest(&self, complete: bool) -> Result<(), Failure> {
        let line = self.lines.saturating_add(1);
        if self.held >= CAPACITY {
            return Err(Failure::LineTooLong { line });
        }
        if complete & (self.held > 0) {
            return Err(Failure::LineWithoutEnd { line });
        }
        Ok(())
    }
}

// Packs and writes all that is settled of the bytes held.
fn pack_all(
    rt: &impl Print,
    input: &mut Input<'_>,
    complete: bool,
    output: &mut [u8; OUTPUT],
) -> Result<(), Failure> {
    loop {
        let packed = input.pack(complete, output);
        rt.write_all(&output[..BLOCK * packed.blocks])
            .map_err(|_| Failure::Write)?;
        if packed.taken == 0 {
            return input.check_rest(complete);
        }
    }
}

// Reads behind the bytes held, and packs. Whether there may be more to read.
fn turn<R: Print, I: Read>(
    rt: &R,
    reader: &mut I,
    input: &mut Input<'_>,
    output: &mut [u8; OUTPUT],
) -> Result<bool, Failure> {
    let count = reader
        .read(&mut input.buffer[input.held..])
        .map_err(|_| Failure::Read)?;
    input.held += count;
    let complete = count == 0;
    pack_all(rt, input, complete, output)?;
    Ok(!complete)
}

// Nothing says that an input ends, so the turns are counted, up to a number that no run reaches.
fn run<R: Print, I: Read>(
    rt: &R,
    reader: &mut I,
    input: &mut Input<'_>,
    output: &mut [u8; OUTPUT],
) -> Result<(), Failure> {
    for _ in 0..u64::MAX {
        if !turn(rt, reader, input, output)? {
            break;
        }
    }
    Ok(())
}

fn main(rt: HostRuntime) -> ExitCode {
    let mut buffer = [0u8; INPUT];
    let mut output = [0u8; OUTPUT];
    let mut input = Input {
        buffer: &mut buffer,
        held: 0,
        lines: 0,
    };
    match run(&rt, &mut rt.stdin(), &mut input, &mut output) {
        Ok(()) => ExitCode::SUCCESS,
        Err(failure) => {
            // Where that cannot be written either, there is nothing left to do.
            let _ = eprintln!(rt; "pack: {failure}");
            ExitCode::FAILURE
        }
    }
}
