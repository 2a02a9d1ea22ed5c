// Pictures and byte lists as recorded, by their sizes, and as calls are lent them.
ghost use Rattle.std.specs.Prelude.{◌≡◌};
ghost use Rattle.planes.specs.Layout.{planes_of};
ghost use Rattle.planes.specs.Pictures.{planes_in, planes_lent};
ghost use Rattle.recording.specs.Stripes.{IsStriped};

use crate::input::Blocks;
use frame::entries::{InterLists, KeyLists};
use planes::picture::{Picture, PictureMut};
use std::io::Read;
use std::{array, io};

// Three planes. They can be longer than the grids of recorded calls need, so that strides can be wider, and differ in length, so that one
// alone can be too short.
#[derive(Clone, Copy, PartialEq, Eq)]
pub struct Planes<const Y: usize, const U: usize, const V: usize> {
    pub y: [u8; Y],
    pub u: [u8; U],
    pub v: [u8; V],
}

// A picture of four macroblocks.
pub type Samples = Planes<1280, 352, 348>;

impl<const Y: usize, const U: usize, const V: usize> Planes<Y, U, V> {
    // Two functions: loans for reading and for writing are two types.
    pub fn lend(&self) -> Picture<'_>
        ensures { planes_in result ≡ planes_of self.now.y self.now.u self.now.v }
    {
        let Planes { y, u, v } = self;
        Picture { y, u, v }
    }

    // No clause says that these planes become what is written into the loans: std's words for that lend two at most.
    pub fn lend_mut(&mut self) -> PictureMut<'_>
        ensures { planes_lent result ≡ planes_of self.old.y self.old.u self.old.v }
    {
        let Planes { y, u, v } = self;
        PictureMut { y, u, v }
    }
}

pub fn read_planes<const Y: usize, const U: usize, const V: usize>(
    input: &mut Blocks<impl Read>,
) -> io::Result<Planes<Y, U, V>> {
    Ok(Planes {
        y: input.read_array()?,
        u: input.read_array()?,
        v: input.read_array()?,
    })
}

fn stripe<const N: usize>() -> [u8; N]
    ensures { IsStriped result }
{
    array::from_fn(|i| if i % 7 < 3 { 100 } else { 108 })
}

// What a call that changes nothing is lent.
pub fn stripes<const Y: usize, const U: usize, const V: usize>() -> Planes<Y, U, V>
    ensures y { IsStriped result.y }
    ensures u { IsStriped result.u }
    ensures v { IsStriped result.v }
{
    Planes {
        y: stripe(),
        u: stripe(),
        v: stripe(),
    }
}

// Document 01's byte lists, for N macroblocks. Five lists and no list of entries, since so the passes are lent them.
#[derive(Clone, Copy)]
pub struct Lists<const N: usize> {
    pub modes: [u8; N],
    pub segments: [u8; N],
    pub flags: [u8; N],
    pub references: [u8; N],
    pub inter_modes: [u8; N],
}

impl<const N: usize> Lists<N> {
    // Those that the key pass reads.
    pub fn key(&self) -> KeyLists<'_>
        ensures modes { result.modes.now ≡ self.now.modes }
        ensures segments { result.segments.now ≡ self.now.segments }
        ensures flags { result.flags.now ≡ self.now.flags }
    {
        KeyLists {
            modes: &self.modes,
            segments: &self.segments,
            flags: &self.flags,
        }
    }

    pub fn inter(&self) -> InterLists<'_>
        ensures modes { result.key.modes.now ≡ self.now.modes }
        ensures segments { result.key.segments.now ≡ self.now.segments }
        ensures flags { result.key.flags.now ≡ self.now.flags }
        ensures references { result.references.now ≡ self.now.references }
        ensures inter_modes { result.inter_modes.now ≡ self.now.inter_modes }
    {
        InterLists {
            key: self.key(),
            references: &self.references,
            inter_modes: &self.inter_modes,
        }
    }
}

pub fn read_lists<const N: usize>(input: &mut Blocks<impl Read>) -> io::Result<Lists<N>> {
    Ok(Lists {
        modes: input.read_array()?,
        segments: input.read_array()?,
        flags: input.read_array()?,
        references: input.read_array()?,
        inter_modes: input.read_array()?,
    })
}
