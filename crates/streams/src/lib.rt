// What the programs read and print alike: one image from standard input, and a refusal with its number.
#![tactic(auto)]

ghost use Rattle.std.specs.Prelude.{Option, List, ℕ, take};
ghost use Rattle.std.specs.Counts.{IsPrefixLen};
ghost use Rattle.std.specs.Io.KnownBytes.{Consumes};
ghost use Rattle.streams.specs.Read.{size_read};

use refusals::refusal_number;
use rules::Refusal;
use std::io;
use std::io::Read;

// An input that is longer than an image can be, and how many of its bytes were read.
#[derive(Drop)]
pub struct TooLong {
    pub size: usize,
}

// Reads an image of at most 65,536 bytes from standard input, `stdin`: how many bytes it has. A read that fails counts as the input's end.
// Of an input whose bytes are known these are the first.
pub fn read_image<R: Read>(stdin: &mut R, image: &mut [u8; 65536]) -> Result<usize, TooLong>
    ensures within { IsPrefixLen (size_read result) image.new }
    ensures first { (rest : Option (List ℕ)) × Consumes (R.remaining stdin.old) rest (take (size_read result) image.new) }
{
    let size = read_full(stdin, image);
    if has_more(stdin) {
        return Err(TooLong { size });
    }
    Ok(size)
}

// Is there a byte left on standard input?
fn has_more<R: Read>(stdin: &mut R) -> bool {
    let mut next = [0u8; 1];
    read_full(stdin, &mut next) != 0
}

// Reads until the buffer is full, the input ends or a read fails: how many bytes stand at its start. A `while`, since a turn goes on by as
// many bytes as the read gave.
fn read_full<R: Read>(stdin: &mut R, buffer: &mut [u8]) -> usize
    ensures within { IsPrefixLen result buffer.new }
    ensures first { Consumes (R.remaining stdin.old) (R.remaining stdin.new) (take result buffer.new) }
{
    let mut size = 0;
    while size < buffer.len() {
        match stdin.read(&mut buffer[size..]) {
            Ok(0) | Err(_) => break,
            Ok(n) => size += n,
        }
    }
    size
}

// Prints a space and a number: one field of a line.
pub fn print_field(rt: &impl Print, n: u64) -> io::Result<()> {
    print!(rt; " {n}")
}

// Ends a line with `refused` and the refusal's number.
pub fn print_refusal(rt: &impl Print, r: Refusal) -> io::Result<()> {
    println!(rt; "refused {}", refusal_number(r))
}
