// Whether a macroblock has coefficients (RFC 6386, section 15.1), and the first of them. Document 01 has them as one list, y2 (16), y
// (256), u (64), v (64); here it is of any length.
ghost use Rattle.std.specs.Prelude.{◌≡◌, ◌≢◌, ◌<◌, ◌≤◌, ℕ, length, get_or, pos};
ghost use Rattle.levels.specs.Coefficients.{has_coeffs, first_coeff};

// The place of the first number that is not 0, or the list's length. A function of its own: the laws go by its three clauses.
fn first_set(coeffs: &[i16]) -> usize
    ensures within { result ≤ length coeffs.now }
    ensures zeros_before { (k : ℕ) → k < result → get_or coeffs.now k (pos 0) ≡ pos 0 }
    ensures set_there { result < length coeffs.now → get_or coeffs.now result (pos 0) ≢ pos 0 }
{
    coeffs
        .iter()
        .position(|coeff| *coeff != 0)
        .unwrap_or(coeffs.len())
}

// The place, from 0, of the first number that is not 0, at which the search ends; the list's length if all are 0.
#[tactic(auto, using(crate::proofs::Coefficients::is_first_coeff))]
pub fn first_coeff(coeffs: &[i16]) -> usize
    ensures { result ≡ first_coeff coeffs.now }
{
    first_set(coeffs)
}

// True if some number is not 0. An empty list gives false.
#[tactic(auto, using(crate::proofs::Coefficients::coeffs_first))]
pub fn mb_has_coeffs(coeffs: &[i16]) -> bool
    ensures { result ≡ has_coeffs coeffs.now }
{
    first_coeff(coeffs) < coeffs.len()
}
