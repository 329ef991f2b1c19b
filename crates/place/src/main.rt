// Reads case.dat and book.dat in the current folder, and prints what `program` says of them.
#![tactic(auto)]

ghost use Rattle.std.specs.Prelude.{◌≤◌, length, IfSome, IfOk};
ghost use Rattle.place.specs.Reads.{BytesOf};

use std::fs::Files;
use std::io::{Read, Write};
use std::{fs, io};

// Reads into buf until the end of the input, or until buf is full. The result is how many bytes were read.
fn read_all<R: Read>(input: &mut R, buf: &mut [u8]) -> io::Result<usize>
    ensures within { IfOk result (λ n. n ≤ length buf.new) }
    ensures bytes { IfSome (R.remaining input.old) (λ bytes. IfOk result (λ n. BytesOf n buf.new bytes)) }
{
    let mut done = 0;
    // No range counts this loop: each read gives as many bytes as it will.
    while done < buf.len() {
        let n = input.read(&mut buf[done..])?;
        if n == 0 {
            return Ok(done);
        }
        done += n;
    }
    Ok(done)
}

// Reads a file, as `read_all` does.
fn read_file<F: Files>(files: &F, path: &str, buf: &mut [u8]) -> io::Result<usize>
    ensures { IfOk result (λ n. n ≤ length buf.new) }
{
    let mut file = fs::open(files, path)?;
    read_all(&mut file, buf)
}

fn main(rt: HostRuntime) -> io::Result<()> {
    let mut case = [0u8; 65537];
    let mut book = [0u8; 65537];
    let mut out = [0u8; 131072];
    let casefile = read_file(&rt, "case.dat", &mut case).ok();
    let bookfile = read_file(&rt, "book.dat", &mut book).ok();
    let end = program::put_program(&case, casefile, &book, bookfile, &mut out);
    io::writer(&rt).write_all(&out[..end])
}
