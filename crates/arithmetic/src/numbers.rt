// RFC 6386, section 15.2: the numbers of the loop filter.
ghost use Rattle.std.specs.Prelude.{◌≡◌};
ghost use Rattle.arithmetic.specs.Numbers as spec;

// c: limits to -128..127.
#[tactic(auto, using(crate::proofs::Limited::byte_limits))]
pub fn clamp_s8(v: i32) -> i8
    ensures { result ≡ spec.clamp v }
{
    v.clamp(-128, 127) as i8
}

// A sample as a signed number.
#[tactic(auto, unfolding(crate::specs::Numbers::u2s))]
pub fn u2s(v: u8) -> i8
    ensures { result ≡ spec.u2s v }
{
    (v as i16 - 128) as i8
}

// Limits, then gives the sample.
#[tactic(auto, unfolding(crate::specs::Numbers::s2u))]
pub fn s2u(v: i32) -> u8
    ensures { result ≡ spec.s2u v }
{
    (clamp_s8(v) as i16 + 128) as u8
}
