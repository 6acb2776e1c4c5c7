// SHA-256 for C and Rust to link, for the benchmark: no part of the library's interface.
#![tactic(auto)]

ghost use Rattle.std.specs.Prelude.{◌≡◌, List, ℕ};
ghost use Rattle.sha256_c.specs.Calls.{digest_call};

use octets::buffers::write_front;

// The digest of a message becomes the first 32 octets of a buffer, and the answer is 0; a shorter
// buffer stays, and the answer is 1.
// Kept: a number for the answer, which C reads (`digest_call`).
#[unsafe(no_mangle)]
#[tactic(auto, unfolding(crate::specs::Calls::digest_call))]
pub extern "C" fn sha256_digest(message: &[u8], digest: &mut [u8]) -> u8
    ensures { ◌≡◌ {A = ℕ × List ℕ} (result, digest.new) (digest_call message.now digest.old) }
{
    if digest.len() < 32 {
        return 1;
    }
    let octets = sha256::digest(message);
    write_front(digest, &octets);
    0
}
