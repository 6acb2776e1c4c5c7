#![tactic(auto, using(octets::proofs::Outcomes::reading))]

ghost use Rattle.std.specs.Prelude.{◌≡◌, ◌+◌, true, false, Result, ℕ, Some, None, Ok};
ghost use Rattle.octets.specs.Reading.{kept};
ghost use Rattle.octets.specs.Outcomes.{read_of};
ghost use Rattle.octets.specs.Elements.{announces};
ghost use Rattle.octets.specs.declared.refusals.Refusal.{Refusal};

use octets::elements::announced;
use octets::reading::Read;

// A header that may be missing: what is read behind its type octet.
pub fn optional_at<T, F: Fn(usize) -> Read<T> + Drop>(
    s: &[u8],
    at: usize,
    wanted: u8,
    read: F,
) -> Read<Option<T>>
    requires { F.IsAlwaysCallable read }
    ensures missing { announces wanted s.now at ≡ false → result ≡ Ok (None, at) }
    ensures there { announces wanted s.now at ≡ true → (r : Result (T × ℕ) Refusal) × F.post read (at + 1) r × (read_of result ≡ kept Some (read_of r)) }
{
    if !announced(s, at, wanted) {
        return Ok((None, at));
    }
    let (value, next) = read(at + 1)?;
    Ok((Some(value), next))
}
