// The blocks of a recorded call: its numbers, the settings and the answer. Numbers have their smallest byte first.
ghost use Rattle.std.specs.Prelude.{◌≡◌, Ok, Err, IfNone, IfSome, IsTrue};

use crate::marks::if_whole;
use levels::config::FrameFilterConfig;
use planes::layout::PlaneLayout;
use std::io::Read;
use std::{array, io};

// A record, as it is read block by block. An input that ended in a block can go on after it, as a terminal does: a record has all of its
// blocks on every input.
#[derive(Drop)]
pub struct Blocks<I> {
    from: I,
    // The input ended in none of those that were read.
    pub whole: bool,
}

impl<I: Read> Blocks<I> {
    pub fn new(from: I) -> Self
        ensures { IsTrue result.whole }
    {
        Blocks { from, whole: true }
    }

    // The next block, read at once: each read is a call of the system. Where the input ends in it, the rest of it is zeros.
    pub fn read_array<const N: usize>(&mut self) -> io::Result<[u8; N]>
        ensures { IsTrue self.new.whole → IsTrue self.old.whole }
    {
        let mut block = [0u8; N];
        self.whole &= if_whole(self.from.read_exact(&mut block))?.is_some();
        Ok(block)
    }
}

// The next bytes and numbers of a block.

pub fn next_array<const N: usize>(from: &mut impl Read) -> io::Result<[u8; N]> {
    let mut block = [0u8; N];
    from.read_exact(&mut block)?;
    Ok(block)
}

pub fn next_u8(from: &mut impl Read) -> io::Result<u8> {
    let [byte]: [u8; 1] = next_array(from)?;
    Ok(byte)
}

pub fn next_flag(from: &mut impl Read) -> io::Result<bool> {
    Ok(next_u8(from)? != 0)
}

// The largest number of four bytes stands for the largest size.
pub fn next_size(from: &mut impl Read) -> io::Result<usize> {
    let n = u32::from_le_bytes(next_array(from)?);
    if n == u32::MAX {
        Ok(usize::MAX)
    } else {
        Ok(n as usize)
    }
}

// A signed number is written as far above 0 as its value is above the type's smallest. One function for each type: their bytes and smallest
// numbers are in no trait of std, one of our own would need an impl for each type, and that of crate num_traits has a `requires`.

pub fn next_i32(from: &mut impl Read) -> io::Result<i32> {
    Ok(i32::from_le_bytes(next_array(from)?).wrapping_add(i32::MIN))
}

pub fn next_i16(from: &mut impl Read) -> io::Result<i16> {
    Ok(i16::from_le_bytes(next_array(from)?).wrapping_add(i16::MIN))
}

pub fn next_i8(from: &mut impl Read) -> io::Result<i8> {
    Ok(i8::from_le_bytes(next_array(from)?).wrapping_add(i8::MIN))
}

// Where and how a call works.
#[derive(Clone, Copy)]
pub struct Place {
    pub layout: PlaneLayout,
    pub start: usize,
    pub allowance: usize,
}

pub fn next_layout(from: &mut impl Read) -> io::Result<PlaneLayout> {
    Ok(PlaneLayout {
        mb_cols: next_size(from)?,
        mb_rows: next_size(from)?,
        y_stride: next_size(from)?,
        uv_stride: next_size(from)?,
    })
}

pub fn read_place(input: &mut Blocks<impl Read>) -> io::Result<Place> {
    let block: [u8; 24] = input.read_array()?;
    let mut from = &block[..];
    Ok(Place {
        layout: next_layout(&mut from)?,
        start: next_size(&mut from)?,
        allowance: next_size(&mut from)?,
    })
}

pub fn read_settings(input: &mut Blocks<impl Read>) -> io::Result<FrameFilterConfig> {
    let block: [u8; 31] = input.read_array()?;
    let mut from = &block[..];
    Ok(FrameFilterConfig {
        simple: next_flag(&mut from)?,
        key_frame: next_flag(&mut from)?,
        loop_filter_level: next_u8(&mut from)?,
        sharpness_level: next_u8(&mut from)?,
        segmentation_enabled: next_flag(&mut from)?,
        segment_abs: next_flag(&mut from)?,
        delta_enabled: next_flag(&mut from)?,
        segment_lf_level: array::try_from_fn(|_| next_i16(&mut from))?,
        ref_delta_current: next_i16(&mut from)?,
        bpred_mode_delta: next_i16(&mut from)?,
        ref_delta_last: next_i16(&mut from)?,
        ref_delta_golden: next_i16(&mut from)?,
        ref_delta_altref: next_i16(&mut from)?,
        zero_mv_mode_delta: next_i16(&mut from)?,
        other_mv_mode_delta: next_i16(&mut from)?,
        split_mv_mode_delta: next_i16(&mut from)?,
    })
}

// What a call answered: the number of its refusal, if it was refused, and a value, which is there in either case.
#[derive(Clone, Copy, PartialEq, Eq)]
pub struct Recorded<T> {
    pub refusal: Option<u8>,
    pub value: T,
}

impl<T: Copy> Recorded<T> {
    // A refused call gave no value.
    pub fn answer(self) -> Result<T, u8>
        ensures value { IfNone self.refusal (result ≡ Ok self.value) }
        ensures refused { IfSome self.refusal (λ number. result ≡ Err number) }
    {
        match self.refusal {
            None => Ok(self.value),
            Some(number) => Err(number),
        }
    }
}

// The number of a refusal, or 0.
pub fn next_refusal(from: &mut impl Read) -> io::Result<Option<u8>> {
    match next_u8(from)? {
        0 => Ok(None),
        number => Ok(Some(number)),
    }
}

pub fn read_recorded(input: &mut Blocks<impl Read>) -> io::Result<Recorded<(usize, usize)>> {
    let block: [u8; 9] = input.read_array()?;
    let mut from = &block[..];
    Ok(Recorded {
        refusal: next_refusal(&mut from)?,
        value: (next_size(&mut from)?, next_size(&mut from)?),
    })
}
