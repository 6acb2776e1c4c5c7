// Prints the digests of FIPS 180-4's example messages, of messages around the edges of the padding,
// and of a message with one octet taken as 0. The expected lines, `stdout`, were written by another
// implementation.
#![tactic(auto)]

ghost use Rattle.std.specs.Prelude.{◌≡◌, length};

use sha256::{digest, digest_with_zero_at, short_digest_with_zero_at};
use std::io;

fn print_octets(rt: &impl Print, s: &[u8]) -> io::Result<()> {
    for x in s {
        print!(rt; "{x:02x}")?;
    }
    println!(rt)
}

// What was hashed, and its digest. Each part of a line is a write of its own.
fn named(rt: &impl Print, name: &str, d: [u8; 32]) -> io::Result<()> {
    print!(rt; "{name}")?;
    print!(rt; ": ")?;
    print_octets(rt, &d)
}

// The digest of so many octets.
fn counted(rt: &impl Print, s: &[u8]) -> io::Result<()> {
    print!(rt; "{}", s.len())?;
    named(rt, " octets", digest(s))
}

// The digest with the octet at a place taken as 0, and its last eight octets.
fn zeroed(rt: &impl Print, s: &[u8], place: usize) -> io::Result<()> {
    print!(rt; "{} octets, 0 at {place}", s.len())?;
    named(rt, "", digest_with_zero_at(s, place))?;
    print!(rt; "its last eight: ")?;
    print_octets(rt, &short_digest_with_zero_at(s, place))
}

// The array's length as a fact, so that no proof computes the array.
fn million_a() -> [u8; 1_000_000]
    ensures { 1000000 ≡ length result }
{
    [b'a'; 1_000_000]
}

fn million(rt: &impl Print) -> io::Result<()> {
    let a = million_a();
    counted(rt, &a)
}

fn main(rt: HostRuntime) -> io::Result<()> {
    named(&rt, "abc", digest(b"abc"))?;
    named(&rt, "empty", digest(b""))?;
    named(
        &rt,
        "448 bits",
        digest(b"abcdbcdecdefdefgefghfghighijhijkijkljklmklmnlmnomnopnopq"),
    )?;
    named(
        &rt,
        "896 bits",
        digest(
            b"abcdefghbcdefghicdefghijdefghijkefghijklfghijklmghijklmnhijklmnoijklmnopjklmnop\
              qklmnopqrlmnopqrsmnopqrstnopqrstu",
        ),
    )?;
    let a = [b'a'; 200];
    for n in [55, 56, 57, 63, 64, 65, 111, 112, 119, 120, 127, 128] {
        counted(&rt, &a[..n])?;
    }
    for place in [0, 63, 64, 191, 192, 199, 200] {
        zeroed(&rt, &a, place)?;
    }
    counted(&rt, &a)?;
    million(&rt)
}
