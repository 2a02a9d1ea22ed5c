// What the records of a section are.
ghost use Rattle.std.specs.Prelude.{◌≡◌, IfOk};
ghost use Rattle.recording.specs.Stripes.{IsStriped};
ghost use Rattle.recording.specs.declared.kinds.Recording.TheVariants.{NoPlanes};

use crate::input::Blocks;
use crate::picture::{Planes, read_planes, stripes};
use std::io;
use std::io::Read;

#[derive(Clone, Copy)]
pub enum Frames {
    Key,
    Inter,
}

// Whether a record has its planes, or none since nothing may change.
#[derive(Clone, Copy)]
pub enum Recording {
    Planes,
    NoPlanes,
}

impl Recording {
    // The next planes of a record.
    pub fn read_planes<const Y: usize, const U: usize, const V: usize>(
        self,
        input: &mut Blocks<impl Read>,
    ) -> io::Result<Planes<Y, U, V>>
        ensures y { self ≡ NoPlanes → IfOk result (λ planes. IsStriped planes.y) }
        ensures u { self ≡ NoPlanes → IfOk result (λ planes. IsStriped planes.u) }
        ensures v { self ≡ NoPlanes → IfOk result (λ planes. IsStriped planes.v) }
    {
        match self {
            Recording::Planes => read_planes(input),
            Recording::NoPlanes => Ok(stripes()),
        }
    }
}
