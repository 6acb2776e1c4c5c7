ghost use Rattle.std.specs.Prelude.{◌≡◌, ◌+◌, ◌*◌, ◌≤◌, ◌<◌, length};
ghost use Rattle.field_words.specs.Words.{with_words};

use octets::buffers::write_octets;

// Words become the octets of a buffer from the word number `at` on, each in four octets, the most significant first.
#[tactic(auto, using(crate::proofs::Written::words_none, crate::proofs::Written::words_more))]
pub fn write_words(buffer: &mut [u8], at: usize, words: &[u64])
    requires { (at < 1000) × (length words.now < 1000) × (4 * at + 4 * length words.now ≤ length buffer.old) }
    ensures { buffer.new ≡ with_words at words.now buffer.old }
{
    for (i, word) in words.iter().enumerate() {
        write_octets(buffer, 4 * (at + i), &word.to_be_bytes()[4..]);
    }
}
