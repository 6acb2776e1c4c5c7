// What prepare, decide and stored give, as octets at the front of a buffer.
#![tactic(auto)]

mod slots; // all that a slot holds

ghost use Rattle.std.specs.Prelude.{◌≡◌, ◌+◌, ◌*◌, ◌≤◌, ◌<◌, length, Ok};
ghost use Rattle.octets.specs.Buffers.{with_octets};
ghost use Rattle.verification.specs.Order.{decided_answer, prepared_answer};
ghost use Rattle.answer_words.specs.Answers.{decision_length, question_length, questions_length, question_octets, with_decision, with_questions};

use field_words::write_words;
use octets::buffers::write_octets;
use octets::vectors::Part;
pub use slots::{STORED_LENGTH, write_stored};
use verification::{Decision, Prepared, Question};

// The layout (specs/Answers): starts count octets, words have four.
const ID_START: usize = 8;

const AID_WORD: usize = 4;

pub const DECISION_LENGTH: usize = 4 * AID_WORD + 12;

const KEY_START: usize = 20;

pub const QUESTION_LENGTH: usize = KEY_START + 32;

const CERTIFICATE_WORD: usize = QUESTION_LENGTH / 4;

pub const QUESTIONS_LENGTH: usize = 2 * QUESTION_LENGTH;

// A decision becomes the first octets of a buffer.
pub fn write_decision(buffer: &mut [u8], d: Decision)
    requires { decision_length ≤ length buffer.old }
    ensures { buffer.new ≡ with_decision (decided_answer (Ok d)) buffer.old }
{
    let payload = [d.payload.start as u64, d.payload.length as u64];
    write_words(buffer, 0, &payload);
    write_octets(buffer, ID_START, &d.signer);
    let signed = [u64::from(d.permission), d.generation >> 32, d.generation];
    write_words(buffer, AID_WORD, &signed);
}

// A question becomes octets of a buffer, from the word number `at` on.
fn write_question(buffer: &mut [u8], at: usize, q: Question)
    requires { (at < 1000) × (4 * at + question_length ≤ length buffer.old) }
    ensures { buffer.new ≡ with_octets buffer.old (4 * at) (question_octets q) }
{
    let words = [
        q.signed.start as u64,
        q.signed.length as u64,
        q.signature.start as u64,
        q.signature.length as u64,
        u64::from(q.form),
    ];
    write_words(buffer, at, &words);
    write_octets(buffer, 4 * at + KEY_START, &q.key);
}

// What stands for a question that is not asked.
const UNASKED: Question = Question {
    signed: Part {
        start: 0,
        length: 0,
    },
    form: 0,
    key: [0; 32],
    signature: Part {
        start: 0,
        length: 0,
    },
};

// The two questions become the first octets of a buffer.
pub fn write_questions(buffer: &mut [u8], q: Prepared)
    requires { questions_length ≤ length buffer.old }
    ensures { buffer.new ≡ with_questions (prepared_answer (Ok q)) buffer.old }
{
    write_question(buffer, 0, q.message);
    let certificate = q.certificate.unwrap_or(UNASKED);
    write_question(buffer, CERTIFICATE_WORD, certificate);
}
