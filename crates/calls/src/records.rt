// Macroblock records: what document 01's byte lists say of one macroblock, in the Rust's enum cases.
use levels::modes::{InterMode, IntraYMode, RefFrame};

#[derive(Clone, Copy, Debug, PartialEq, Eq)]
pub struct MacroblockModes {
    pub y_mode: IntraYMode,
    // A segment above 3 counts as 3, and none as 0.
    pub segment_id: Option<u8>,
    // A flag of its own: each other field stands with coefficients and without.
    pub has_coeffs: bool,
    pub ref_frame: Option<RefFrame>,
    pub inter_mode: Option<InterMode>,
}
