ghost use Rattle.std.specs.Prelude.{◌≡◌};
ghost use Rattle.signing.specs.Fields.{generated, its_aid};

use headers::fields::Fields;

// The generation time of a message, in microseconds: each that was read has one.
pub fn generated(fields: &Fields) -> u64
    ensures { result ≡ generated fields.now }
{
    fields.generation.unwrap_or(0)
}

// Its its_aid: each that was read has one.
pub fn its_aid(fields: &Fields) -> u32
    ensures { result ≡ its_aid fields.now }
{
    fields.aid.unwrap_or(0)
}
