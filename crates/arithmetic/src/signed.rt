// Numbers of 16 bits, which the kernels compute with.
ghost use Rattle.std.specs.Prelude.{◌≡◌, cond, pos, ◌+ℤ◌, ◌*ℤ◌};
ghost use Rattle.arithmetic.specs.Numbers as spec;

// c: limits to -128..127.
#[tactic(auto, using(crate::proofs::Limited::byte_limits))]
pub fn clamp(v: i16) -> i16
    ensures { result ≡ spec.clamp v }
{
    v.clamp(-128, 127)
}

// With a at most 123 the sums a + 3 and a + 4 need no c for their shift by 3.
#[tactic(auto, using(crate::proofs::Limited::limit_123))]
pub fn at_most_123(v: i16) -> i16
    ensures { result ≡ spec.at_most123 v }
{
    v.min(123)
}

// One of two numbers, without a branch.
pub fn pick(yes: bool, a: i16, b: i16) -> i16
    ensures { result ≡ cond yes a b }
{
    if yes { a } else { b }
}

// Changes no difference of two samples. Of its own beside `clamp`: std's method is the body of both, and each has its own definition.
#[tactic(auto, using(crate::proofs::Limited::limits_255))]
fn within_255(v: i16) -> i16
    ensures { result ≡ spec.within255 v }
{
    v.clamp(-255, 255)
}

// a of common_adjust before it is divided, where o is p1 - q1 and d is q0 - p0. From 85 on 3 * d settles the result alone, so a limit of d
// above that changes nothing, and no sum leaves 16 bits.
pub fn filter_value(outer: bool, o: i16, d: i16) -> i16
    ensures { result ≡ spec.clamp (cond outer (spec.clamp o) (pos 0) +ℤ pos 3 *ℤ d) }
{
    clamp(pick(outer, clamp(o), 0) + 3 * within_255(d))
}
