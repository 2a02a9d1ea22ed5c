// The limits of a normal kernel (RFC 6386, section 15.3).
#[derive(Clone, Copy)]
pub struct EdgeLimits {
    pub threshold: u8,
    pub interior: u8,
    pub limit: u8,
}
