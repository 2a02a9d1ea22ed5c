// Macroblock records, six bytes each: mode, whether there is a segment, segment, flag, reference, inter mode. A byte without a case counts
// as the last one.
use calls::records::MacroblockModes;
use levels::cases::{inter_mode_of, mode_of, reference_of};
use recording::input::{Blocks, next_flag, next_u8};
use std::io::Read;
use std::{array, io};

fn next_segment(from: &mut &[u8]) -> io::Result<Option<u8>> {
    let present = next_flag(from)?;
    let segment = next_u8(from)?;
    Ok(present.then_some(segment))
}

fn next_record(from: &mut &[u8]) -> io::Result<MacroblockModes> {
    Ok(MacroblockModes {
        y_mode: mode_of(next_u8(from)?),
        segment_id: next_segment(from)?,
        has_coeffs: next_flag(from)?,
        ref_frame: reference_of(next_u8(from)?),
        inter_mode: inter_mode_of(next_u8(from)?),
    })
}

// One for each macroblock of a picture.
pub fn read_records(input: &mut Blocks<impl Read>) -> io::Result<[MacroblockModes; 4]> {
    let block: [u8; 24] = input.read_array()?;
    let mut from = &block[..];
    array::try_from_fn(|_| next_record(&mut from))
}
