// Reads blocks of 512 bytes from standard input and prints their lines. A block that is refused is left out and told of on standard error.
//
// What a block and a row of blocks yield is proved in `archive`; here it is proved that the program is safe and ends. That it unpacks all
// blocks in their order, and writes what they yield, is to be read here. No contract says what the system moves, so it is assumed that
// `read` puts the next bytes of the input first in the buffer that it is lent and returns their number, that `write_all` hands on the bytes
// that it is lent, and that both return.
#![tactic(auto)]

ghost use Rattle.std.specs.Prelude.{◌≤◌, length};

use archive::BLOCK;
use basis::Refusal;
use std::fmt;
use std::io::Read;
use std::process::ExitCode;

// How much is held at most: whole blocks. Their lines fit as many bytes.
const INPUT: usize = 131072;

const OUTPUT: usize = INPUT;

// Why the program ends without having read its whole input.
#[derive(Clone, Copy, Debug, PartialEq, Eq)]
enum Failure {
    Read,
    Write,
}

impl fmt::Display for Failure {
    fn fmt<W: fmt::Write>(&self, f: &mut fmt::Formatter<W>) -> fmt::Result {
        f.write_str(match self {
            Failure::Read => "cannot read standard input",
            Failure::Write => "cannot write standard output",
        })
    }
}

// A block that is refused, and at which byte of the input it begins.
#[derive(Clone, Copy)]
struct Refused {
    refusal: Refusal,
    start: u64,
}

impl fmt::Display for Refused {
    fn fmt<W: fmt::Write>(&self, f: &mut fmt::Formatter<W>) -> fmt::Result {
        let refusal = u64::from(self.refusal);
        let start = self.start;
        let block = start / BLOCK as u64;
        write!(
            f,
            "refusal {refusal}: block {block}, from byte {start} on, is left out"
        )
    }
}

// How many bytes of the input are behind, and whether all blocks in them yielded their lines.
#[derive(Clone, Copy)]
struct Progress {
    start: u64,
    intact: bool,
}

impl Progress {
    // Where that cannot be written, the exit status still tells that a block is left out.
    fn refuse(&mut self, rt: &impl Eprint, refusal: Refusal) {
        let refused = Refused {
            refusal,
            start: self.start,
        };
        let _ = eprintln!(rt; "unpack: {refused}");
        self.intact = false;
    }

    fn pass(&mut self, bytes: usize) {
        self.start = self.start.saturating_add(bytes as u64);
    }
}

// The bytes that are read and not unpacked yet: they stand first in a buffer.
#[derive(Drop)]
struct Input<'a> {
    buffer: &'a mut [u8],
    held: usize,
    ghost within: { held ≤ length buffer.now },
}

// Writes what one block yields, or tells that it is refused. It is the block at which `archive::unpack` ended: one that is refused, or one for
// which the output had no room.
fn unpack_block<R: Print + Eprint>(
    rt: &R,
    block: &[u8],
    progress: &mut Progress,
) -> Result<(), Failure> {
    match archive::read_block(block) {
        Ok(lines) => rt.write_all(lines).map_err(|_| Failure::Write)?,
        Err(refusal) => progress.refuse(rt, refusal),
    }
    progress.pass(block.len());
    Ok(())
}

// Unpacks whole blocks; a last piece under 512 bytes is a block that is refused. Blocks that yield are written together, up to one that is refused.
fn unpack_blocks<R: Print + Eprint>(
    rt: &R,
    blocks: &[u8],
    progress: &mut Progress,
    output: &mut [u8; OUTPUT],
) -> Result<(), Failure> {
    let mut rest = blocks;
    while rest.len() > 0 {
        let unpacked = archive::unpack(rest, output);
        rt.write_all(&output[..unpacked.written])
            .map_err(|_| Failure::Write)?;
        let taken = BLOCK * unpacked.blocks;
        progress.pass(taken);
        let (_, behind) = rest.split_at(taken);
        let (block, behind) = behind.split_at(behind.len().min(BLOCK));
        if block.len() > 0 {
            unpack_block(rt, block, progress)?;
        }
        rest = behind;
    }
    Ok(())
}

// Reads behind the bytes held, and unpacks. Whether there may be more to read.
fn turn<R: Print + Eprint, I: Read>(
    rt: &R,
    reader: &mut I,
    input: &mut Input<'_>,
    progress: &mut Progress,
    output: &mut [u8; OUTPUT],
) -> Result<bool, Failure> {
    let count = reader
        .read(&mut input.buffer[input.held..])
        .map_err(|_| Failure::Read)?;
    let held = input.held + count;
    let complete = count == 0;
    let end = if complete { held } else { held - held % BLOCK };
    unpack_blocks(rt, &input.buffer[..end], progress, output)?;
    input.buffer.copy_within(end..held, 0);
    input.held = held - end;
    Ok(!complete)
}

// Whether all blocks yielded their lines. Nothing says that an input ends, so the turns are counted, up to a number that no run reaches.
fn run<R: Print + Eprint, I: Read>(
    rt: &R,
    reader: &mut I,
    input: &mut Input<'_>,
    output: &mut [u8; OUTPUT],
) -> Result<bool, Failure> {
    let mut progress = Progress {
        start: 0,
        intact: true,
    };
    for _ in 0..u64::MAX {
        if !turn(rt, reader, input, &mut progress, output)? {
            break;
        }
    }
    Ok(progress.intact)
}

fn main(rt: HostRuntime) -> ExitCode {
    let mut buffer = [0u8; INPUT];
    let mut output = [0u8; OUTPUT];
    let mut input = Input {
        buffer: &mut buffer,
        held: 0,
    };
    match run(&rt, &mut rt.stdin(), &mut input, &mut output) {
        Ok(true) => ExitCode::SUCCESS,
        Ok(false) => ExitCode::FAILURE,
        Err(failure) => {
            // Where that cannot be written either, there is nothing left to do.
            let _ = eprintln!(rt; "unpack: {failure}");
            ExitCode::FAILURE
        }
    }
}
