ghost use Rattle.std.specs.Prelude.{◌≡◌, ◌+◌, ◌*◌, ◌≤◌, ◌<◌, length};
ghost use Rattle.text.specs.Text.{hex_digit, hex_of, Written};

use crate::pieces::write_octet;

#[tactic(auto, using(crate::proofs::Hex::digit_low, crate::proofs::Hex::digit_high))]
fn hex_digit(n: u8) -> u8
    requires { n < 16 }
    ensures { result ≡ hex_digit n }
{
    if n < 10 { b'0' + n } else { b'a' + (n - 10) }
}

// Two lowercase digits an octet, the high one first.
#[tactic(auto, using(crate::proofs::Hex::hex_first))]
pub fn write_hex(out: &mut [u8], at: usize, octets: &[u8]) -> usize
    requires { at + 2 * length octets.now ≤ length out.old }
    ensures { Written out.old at (hex_of octets.now) result out.new }
{
    let mut place = at;
    for octet in octets {
        place = write_octet(out, place, hex_digit(octet / 16));
        place = write_octet(out, place, hex_digit(octet % 16));
    }
    place
}
