// The program `page` (document 01, "The page program"): it prints the page for what standard input
// holds. Unless a read or a write fails, that is proved of every reader and writer whose octets
// a contract can name; which octets the system gives and takes, no contract says.
#![tactic(auto)]

ghost use Rattle.std.specs.Prelude.{◌≡◌, ◌+◌, ◌≤◌, ◌<◌, length, take, OnOk, IfOk, IfSome};
ghost use Rattle.std.specs.Io.KnownBytes.{Appends, Consumes, IsAtEnd};
ghost use Rattle.page_text.specs.Page.{input_length, page_text};
ghost use Rattle.page_text.specs.Sizes.{page_length};

use page_text::page;
use page_text::sizes::{INPUT_LENGTH, PAGE_LENGTH};
use std::io::{Read, Write};
use std::{fmt, io};

const INPUT_ROOM: usize = INPUT_LENGTH + 1;

// Why no page, or only a part of one, was printed.
#[derive(Clone, Copy)]
enum Failure {
    Reading,
    Writing,
}

impl fmt::Display for Failure {
    fn fmt<W: fmt::Write>(&self, f: &mut fmt::Formatter<W>) -> fmt::Result {
        match self {
            Failure::Reading => write!(f, "cannot read standard input"),
            Failure::Writing => write!(f, "cannot write to standard output"),
        }
    }
}

// Reads to the end of the input, or until the buffer is full.
// Kept: a while, since how much a read gives is not known before it.
fn read_input<R: Read>(reader: &mut R, buffer: &mut [u8]) -> io::Result<usize>
    ensures inside { IfOk result (λ n. n ≤ length buffer.new) }
    ensures octets { IfOk result
        (λ n. Consumes (R.remaining reader.old) (R.remaining reader.new) (take n buffer.new)) }
    ensures end { IfOk result
        (λ n. n < length buffer.new → IsAtEnd (R.remaining reader.new)) }
{
    let mut n = 0;
    while n < buffer.len() {
        match reader.read(&mut buffer[n..])? {
            0 => return Ok(n),
            k => n += k,
        }
    }
    Ok(n)
}

// Room for one octet more than an input has, so that a longer one is seen. The length is given as
// a fact, so that no proof computes the array.
fn room_for_input() -> [u8; INPUT_ROOM]
    ensures { input_length + 1 ≡ length result }
{
    [0; INPUT_ROOM]
}

fn room_for_text() -> [u8; PAGE_LENGTH]
    ensures { page_length ≡ length result }
{
    [0; PAGE_LENGTH]
}

// Prints the page for an input.
fn print_page<W: Write>(writer: &mut W, input: &[u8]) -> io::Result<()>
    ensures { OnOk result
        (Appends (W.contents writer.old) (W.contents writer.new) (page_text input.now)) }
{
    let mut text = room_for_text();
    let n = page(input, &mut text) as usize;
    writer.write_all(&text[..n])
}

// Prints the page for all that the reader has. Of an input that is too long the rest is not read.
fn answer<R: Read, W: Write>(reader: &mut R, writer: &mut W) -> Result<(), Failure>
    ensures { OnOk result (IfSome (R.remaining reader.old)
        (λ input. Appends (W.contents writer.old) (W.contents writer.new) (page_text input))) }
{
    let mut buffer = room_for_input();
    let n = read_input(reader, &mut buffer).map_err(|_| Failure::Reading)?;
    print_page(writer, &buffer[..n]).map_err(|_| Failure::Writing)
}

// The exit status is 0 in each case. Where the message cannot be written either, nobody is told.
fn main(rt: HostRuntime) {
    if let Err(failure) = answer(&mut rt.stdin(), &mut rt.stdout()) {
        let _ = eprintln!(rt; "page: {failure}");
    }
}
