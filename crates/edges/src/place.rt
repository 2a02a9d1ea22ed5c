// Where an edge lies in its plane, and whether it lies within it.
ghost use Rattle.std.specs.Prelude.{◌≡◌, ◌&&◌, ◌+◌, ◌*◌, ◌<◌, leb};

// `at` is the index of the first tap at the edge's first position, and rows are `stride` apart: no slice has the samples of an edge and no
// others, so that this goes beside the plane. An edge limit is the kernel's, and goes beside both.
#[derive(Clone, Copy)]
pub struct EdgePlace {
    pub stride: usize,
    pub at: usize,
}

impl EdgePlace {
    // `across` samples from `at` on, and in each row down to the one `last` rows
    // below, lie among `len` samples. No sum or product can wrap.
    // One chain of `and_then` was tried: the proof did not close.
    // It takes the length alone, since no sample is read. A caller that names `last` as a number has a division by that number, which the
    // compiler turns into a product.
    pub(crate) fn has_room(self, len: usize, last: usize, across: usize) -> bool
        requires { 0 < last }
        ensures { result ≡ leb (self.at + last * self.stride + across) len }
    {
        let Some(room) = len.checked_sub(across) else {
            return false;
        };
        let Some(below) = room.checked_sub(self.at) else {
            return false;
        };
        self.stride <= below / last
    }

    // The same of rows that do not overlap.
    pub(crate) fn has_rows(self, len: usize, last: usize, across: usize) -> bool
        requires { 0 < last }
        ensures { result ≡ (leb across self.stride && leb (self.at + last * self.stride + across) len) }
    {
        (across <= self.stride) & self.has_room(len, last, across)
    }
}
