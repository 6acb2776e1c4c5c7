ghost use Rattle.std.specs.Prelude.{◌≡◌, List, ℕ, ◌≤◌, length};
ghost use Rattle.bitfields.specs.Field.{number};
ghost use Rattle.text.specs.Text.{Written};
ghost use Rattle.records.specs.Layout.{ID};
ghost use Rattle.page_text.specs.Page.{second_length, listed, page_of, page_call};
ghost use Rattle.page_text.specs.Sizes.{page_length};

use crate::lines::{write_list, write_refusal};
use crate::sizes::{ID_END, INPUT_LENGTH, PAGE_LENGTH};
use octets::refusals::Refusal;
use store::sizes::{SLOTS, STORE_LENGTH};
use withdrawal::list;

// The number of four octets, the first the highest.
#[tactic(auto, using(crate::proofs::Seconds::four_number))]
fn second_of(s: &[u8]) -> u32
    requires { length s.now ≡ second_length }
    ensures { result ≡ number s.now }
{
    u32::from_be_bytes([s[0], s[1], s[2], s[3]])
}

// The text for a store, an id and a second.
fn write_page(store: &[u8; STORE_LENGTH], id: &[u8], second: u32, text: &mut [u8]) -> u32
    requires { (length id.now ≡ ID.count) × (page_length ≤ length text.old) }
    ensures { Written text.old 0 (page_of store.now id.now second (listed store.now id.now second)) result text.new }
{
    let mut lent = [0u8; SLOTS];
    match list(store, id, second, &mut lent) {
        Err(refusal) => write_refusal(text, refusal) as u32,
        Ok(n) => write_list(text, id, second, store, &lent[..n as usize]) as u32,
    }
}

// What the page program prints for its input: the text goes to the front of a lent buffer, and the answer is its length.
pub fn page(input: &[u8], text: &mut [u8]) -> u32
    ensures { ◌≡◌ {A = ℕ × List ℕ} (result, text.new) (page_call input.now text.old) }
{
    if text.len() < PAGE_LENGTH {
        return 0;
    }
    if input.len() != INPUT_LENGTH {
        return write_refusal(text, Refusal::BadCall) as u32;
    }
    let second = second_of(&input[ID_END..INPUT_LENGTH]);
    let (store, _) = input.split_first_chunk::<STORE_LENGTH>().unwrap();
    write_page(store, &input[STORE_LENGTH..ID_END], second, text)
}
