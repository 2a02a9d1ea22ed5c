// The three planes of a picture, lent for reading or for writing. Not one struct over what a plane is, with the lengths of `layout`: it
// could not derive `Copy` for one and `Drop` for the other, and each method and definition of theirs is of one of them.
// A call that is lent a `PictureMut` could put other loans into it: that it does not is a clause of each (`SameLoans`).
ghost use Rattle.std.specs.Prelude.{◌≡◌, length};
ghost use Rattle.planes.specs.Pictures.{planes_in, planes_lent};

use crate::layout::PlaneLengths;

#[derive(Clone, Copy)]
pub struct Picture<'a> {
    pub y: &'a [u8],
    pub u: &'a [u8],
    pub v: &'a [u8],
}

#[derive(Drop)]
pub struct PictureMut<'a> {
    pub y: &'a mut [u8],
    pub u: &'a mut [u8],
    pub v: &'a mut [u8],
}

impl Picture<'_> {
    pub fn lengths(self) -> PlaneLengths
        ensures y_length { result.y ≡ length self.entry.y.now }
        ensures u_length { result.u ≡ length self.entry.u.now }
        ensures v_length { result.v ≡ length self.entry.v.now }
    {
        PlaneLengths {
            y: self.y.len(),
            u: self.u.len(),
            v: self.v.len(),
        }
    }
}

impl PictureMut<'_> {
    pub fn lengths(&self) -> PlaneLengths
        ensures y_length { result.y ≡ length self.now.y.now }
        ensures u_length { result.u ≡ length self.now.u.now }
        ensures v_length { result.v ≡ length self.now.v.now }
    {
        self.read().lengths()
    }

    // The same planes, for reading.
    pub fn read(&self) -> Picture<'_>
        ensures { planes_in result ≡ planes_lent self.now }
    {
        Picture {
            y: &*self.y,
            u: &*self.u,
            v: &*self.v,
        }
    }
}
