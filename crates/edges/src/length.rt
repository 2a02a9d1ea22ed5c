// The lengths of an edge (RFC 6386, section 15.1): 16 samples in a luma plane, 8 in a chroma plane.
ghost use Rattle.std.specs.Prelude.{◌<◌};
ghost use Rattle.std.proofs.Common.{lit<};

pub trait EdgeLength<const N: usize> {
    // An edge has eight positions or more, and 16 bits count them.
    ghost several: { 7 < N };

    ghost counted: { N < 65536 };
}

pub struct Samples;

impl EdgeLength<16> for Samples {
    ghost several = { lit< tt };

    ghost counted = { lit< tt };
}

impl EdgeLength<8> for Samples {
    ghost several = { lit< tt };

    ghost counted = { lit< tt };
}
