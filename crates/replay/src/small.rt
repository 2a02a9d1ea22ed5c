// Numbers, limits, kernels, levels, coefficients and final rows. Each record is one call.
use crate::sections::section;
use arithmetic::limits::LoopFilterParams;
use arithmetic::numbers::{clamp_s8, s2u, u2s};
use calls::final_rows::final_rows;
use kernels::answers::KernelRefusal;
use kernels::limits::EdgeLimits;
use kernels::segments::{common_adjust, normal_filter, simple_segment};
use levels::answers::LevelRefusal;
use levels::coeffs::mb_has_coeffs;
use levels::level::{calculate_mb_filter_level, calculate_mb_filter_level_inter};
use recording::input::{
    Blocks, Recorded, next_array, next_flag, next_i8, next_i16, next_i32, next_refusal, next_size,
    next_u8, read_place, read_recorded, read_settings,
};
use std::io;
use std::io::Read;

// `replay_clamp` to `replay_derive` each read what a record holds and call one function: what they share is in `section`.

fn replay_clamp(input: &mut Blocks<impl Read>) -> io::Result<bool> {
    let block: [u8; 5] = input.read_array()?;
    let mut from = &block[..];
    let clamped = clamp_s8(next_i32(&mut from)?);
    Ok(clamped == next_i8(&mut from)?)
}

fn replay_u2s(input: &mut Blocks<impl Read>) -> io::Result<bool> {
    let block: [u8; 2] = input.read_array()?;
    let mut from = &block[..];
    let signed = u2s(next_u8(&mut from)?);
    Ok(signed == next_i8(&mut from)?)
}

fn replay_s2u(input: &mut Blocks<impl Read>) -> io::Result<bool> {
    let block: [u8; 5] = input.read_array()?;
    let mut from = &block[..];
    let sample = s2u(next_i32(&mut from)?);
    Ok(sample == next_u8(&mut from)?)
}

// Level, sharpness and whether it is a key frame; the four limits.
fn replay_derive(input: &mut Blocks<impl Read>) -> io::Result<bool> {
    let [
        level,
        sharpness,
        key_frame,
        interior,
        threshold,
        macroblock,
        inner,
    ]: [u8; 7] = input.read_array()?;
    let params = LoopFilterParams::derive(level, sharpness, key_frame != 0);
    let limits = [
        params.interior_limit,
        params.hev_threshold,
        params.mbedge_limit,
        params.sub_bedge_limit,
    ];
    Ok(limits == [interior, threshold, macroblock, inner])
}

pub fn number_sections(rt: &(impl Input + Print)) -> io::Result<()> {
    section(rt, "clamp_s8", |input| replay_clamp(input))?;
    section(rt, "u2s", |input| replay_u2s(input))?;
    section(rt, "s2u", |input| replay_s2u(input))?;
    section(rt, "derive", |input| replay_derive(input))
}

// The samples before and after a kernel's call.
fn read_samples(input: &mut Blocks<impl Read>) -> io::Result<[[u8; 16]; 2]> {
    Ok([input.read_array()?, input.read_array()?])
}

// A mark, the base, the refusal and the adjustment; the samples before and after.
fn replay_adjust(input: &mut Blocks<impl Read>) -> io::Result<bool> {
    let block: [u8; 10] = input.read_array()?;
    let mut from = &block[..];
    let use_outer_taps = next_flag(&mut from)?;
    let base = next_size(&mut from)?;
    let recorded = Recorded {
        refusal: next_refusal(&mut from)?,
        value: next_i32(&mut from)?,
    };
    let [mut samples, after] = read_samples(input)?;
    let answer = common_adjust(use_outer_taps, &mut samples, base);
    Ok((answer.map_err(u8::from) == recorded.answer()) & (samples == after))
}

// `from`: what its block has after a kernel's limits, the base and the refusal. The samples before and after.
fn replay_kernel<F: FnOnce(&mut [u8], usize) -> Result<bool, KernelRefusal>>(
    input: &mut Blocks<impl Read>,
    mut from: &[u8],
    kernel: F,
) -> io::Result<bool>
    requires { F.IsAlwaysCallable kernel }
{
    let base = next_size(&mut from)?;
    let refusal = next_refusal(&mut from)?;
    let [mut samples, after] = read_samples(input)?;
    let answer = kernel(&mut samples, base);
    Ok((answer.err().map(u8::from) == refusal) & (samples == after))
}

fn next_edge_limits(from: &mut &[u8]) -> io::Result<EdgeLimits> {
    let [threshold, interior, limit]: [u8; 3] = next_array(from)?;
    Ok(EdgeLimits {
        threshold,
        interior,
        limit,
    })
}

pub fn kernel_sections(rt: &(impl Input + Print)) -> io::Result<()> {
    section(rt, "common_adjust", |input| replay_adjust(input))?;
    section(rt, "simple_segment", |input| {
        let block: [u8; 6] = input.read_array()?;
        let mut from = &block[..];
        let edge = next_u8(&mut from)?;
        replay_kernel(
            input,
            from,
            |samples, base| simple_segment(edge, samples, base),
        )
    })?;
    section(rt, "subblock_filter", |input| {
        let block: [u8; 8] = input.read_array()?;
        let mut from = &block[..];
        let limits = next_edge_limits(&mut from)?;
        replay_kernel(
            input,
            from,
            |samples, base| normal_filter::<false>(limits, samples, base),
        )
    })?;
    section(rt, "mb_filter", |input| {
        let block: [u8; 8] = input.read_array()?;
        let mut from = &block[..];
        let limits = next_edge_limits(&mut from)?;
        replay_kernel(
            input,
            from,
            |samples, base| normal_filter::<true>(limits, samples, base),
        )
    })
}

// `from`: what its block has after a macroblock's entry, the refusal and the level.
fn is_level(mut from: &[u8], answer: Result<u8, LevelRefusal>) -> io::Result<bool> {
    let recorded = Recorded {
        refusal: next_refusal(&mut from)?,
        value: next_u8(&mut from)?,
    };
    Ok(answer.map_err(u8::from) == recorded.answer())
}

// 400 coefficients, all 0 but the one at `at`, where there is one; and whether there are any.
fn replay_coefficients(input: &mut Blocks<impl Read>) -> io::Result<bool> {
    let block: [u8; 7] = input.read_array()?;
    let mut from = &block[..];
    let at = next_size(&mut from)?;
    let coefficient = next_i16(&mut from)?;
    let mut coefficients = [0i16; 400];
    if at < coefficients.len() {
        coefficients[at] = coefficient;
    }
    Ok(mb_has_coeffs(&coefficients) == next_flag(&mut from)?)
}

fn replay_final_rows(input: &mut Blocks<impl Read>) -> io::Result<bool> {
    let place = read_place(input)?;
    let recorded = read_recorded(input)?;
    let answer = final_rows(place.layout, place.start).map(|rows| (rows.luma, rows.chroma));
    Ok(answer.map_err(u8::from) == recorded.answer())
}

pub fn level_sections(rt: &(impl Input + Print)) -> io::Result<()> {
    section(rt, "calculate_mb_filter_level", |input| {
        let config = read_settings(input)?;
        let block: [u8; 4] = input.read_array()?;
        let mut from = &block[..];
        let [segment, mode]: [u8; 2] = next_array(&mut from)?;
        is_level(from, calculate_mb_filter_level(config, segment, mode))
    })?;
    section(rt, "calculate_mb_filter_level_inter", |input| {
        let config = read_settings(input)?;
        let block: [u8; 6] = input.read_array()?;
        let mut from = &block[..];
        let [segment, reference, inter_mode, mode]: [u8; 4] = next_array(&mut from)?;
        let answer = calculate_mb_filter_level_inter(config, segment, reference, inter_mode, mode);
        is_level(from, answer)
    })?;
    section(rt, "mb_has_coeffs", |input| replay_coefficients(input))?;
    section(rt, "final_rows", |input| replay_final_rows(input))
}
