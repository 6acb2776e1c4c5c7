ghost use Rattle.std.specs.Prelude.{◌+◌, ◌≤◌, ◌<◌, [], ◌∷◌, length};
ghost use Rattle.text.specs.Text.{Written};

use octets::buffers::write_octets;

#[tactic(auto, using(octets::proofs::Buffered::octets_one))]
pub fn write_octet(out: &mut [u8], at: usize, octet: u8) -> usize
    requires { at < length out.old }
    ensures { Written out.old at (octet ∷ []) result out.new }
{
    out[at] = octet;
    at + 1
}

pub fn write_text(out: &mut [u8], at: usize, text: &[u8]) -> usize
    requires { at + length text.now ≤ length out.old }
    ensures { Written out.old at text.now result out.new }
{
    write_octets(out, at, text);
    at + text.len()
}
