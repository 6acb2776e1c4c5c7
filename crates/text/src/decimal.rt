ghost use Rattle.std.specs.Prelude.{◌+◌, ◌≤◌, length};
ghost use Rattle.text.specs.Text.{decimal_of, Written};

use crate::pieces::write_text;

// A number without leading zeros. Its digits are found from the last to the first.
#[tactic(auto, using(crate::proofs::Decimals::found_none, crate::proofs::Decimals::found_room, crate::proofs::Decimals::found_all, crate::proofs::Decimals::decimal_ten))]
pub fn write_decimal(out: &mut [u8], at: usize, value: u32) -> usize
    requires { at + 10 ≤ length out.old }
    ensures { Written out.old at (decimal_of value) result out.new }
{
    let mut digits = [0u8; 10];
    let mut start = 9;
    let mut rest = value;
    // Kept: it ends where one digit is left, over no range; a recursion would take stack for each digit.
    while 10 <= rest {
        digits[start] = b'0' + (rest % 10) as u8;
        rest /= 10;
        start -= 1;
    }
    digits[start] = b'0' + rest as u8;
    write_text(out, at, &digits[start..])
}
