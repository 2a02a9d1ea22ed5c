// Figures M, N and O of document 01, executed.
#![tactic(auto)]

ghost use Rattle.std.specs.Prelude.{◌<◌};

use calls::answers::{Done, PassRefusal};
use frame::pass::filter_frame;
use levels::config::FrameFilterConfig;
use planes::layout::PlaneLayout;
use recording::kinds::Frames;
use recording::picture::{Lists, Planes};
use std::{array, fmt, io};

#[derive(Clone, Copy, PartialEq, Eq)]
enum Filter {
    Normal,
    Simple,
}

fn settings(filter: Filter, level: u8) -> FrameFilterConfig {
    FrameFilterConfig {
        simple: filter == Filter::Simple,
        key_frame: true,
        loop_filter_level: level,
        ..FrameFilterConfig::default()
    }
}

// One row of macroblocks.
fn layout(mb_cols: usize) -> PlaneLayout {
    PlaneLayout {
        mb_cols,
        mb_rows: 1,
        y_stride: 32,
        uv_stride: 16,
    }
}

// The lists of N macroblocks of mode Dc and flag 0.
fn zeros<const N: usize>() -> Lists<N> {
    Lists {
        modes: [0; N],
        segments: [0; N],
        flags: [0; N],
        references: [0; N],
        inter_modes: [0; N],
    }
}

// The planes of a grid of one or two macroblocks.
type Samples = Planes<512, 128, 128>;

// Rows that step between 100 and 108 every `half` samples.
fn steps<const N: usize>(half: usize) -> [u8; N]
    requires { 0 < half }
{
    array::from_fn(|i| if i / half % 2 == 0 { 100 } else { 108 })
}

fn stepped(luma_half: usize, chroma_half: usize) -> Samples
    requires luma { 0 < luma_half }
    requires chroma { 0 < chroma_half }
{
    Planes {
        y: steps(luma_half),
        u: steps(chroma_half),
        v: steps(chroma_half),
    }
}

// One macroblock, through one of the passes.
fn filter_one(
    planes: &mut Samples,
    filter: Filter,
    frames: Frames,
    level: u8,
) -> Result<Done, PassRefusal> {
    let lists: Lists<1> = zeros();
    let mut picture = planes.lend_mut();
    let config = settings(filter, level);
    match frames {
        Frames::Key => filter_frame(&mut picture, layout(1), lists.key(), config, 0, 1),
        Frames::Inter => filter_frame(&mut picture, layout(1), lists.inter(), config, 0, 1),
    }
}

// M: a macroblock is done, it keeps every sample, and nothing is smoothed.
fn one_macroblock_stays(filter: Filter, frames: Frames, level: u8) -> bool {
    let before = stepped(4, 4);
    let mut planes = before;
    let done = Done {
        count: 1,
        next: 1,
        smoothed: 0,
    };
    let answer = filter_one(&mut planes, filter, frames, level);
    (answer == Ok(done)) & (planes == before)
}

// M, for every header byte.
fn stays_at_every_level(filter: Filter, frames: Frames) -> bool {
    (0..=255u8).all(|level| one_macroblock_stays(filter, frames, level))
}

// M, for both filters and both passes.
fn one_macroblock(rt: &impl Print) -> io::Result<()> {
    let cases = [
        ("normal, key", Filter::Normal, Frames::Key),
        ("normal, inter", Filter::Normal, Frames::Inter),
        ("simple, key", Filter::Simple, Frames::Key),
        ("simple, inter", Filter::Simple, Frames::Inter),
    ];
    for (name, filter, frames) in cases {
        let found = if stays_at_every_level(filter, frames) {
            "nothing changes, nothing is smoothed"
        } else {
            "a sample changes, or something is smoothed"
        };
        println!(rt; "M {name}: {found}")?;
    }
    Ok(())
}

// The columns of a plane before and after a call: a letter for each, x where some sample of it differs.
#[derive(Clone, Copy)]
struct Columns<'a, const STRIDE: usize> {
    before: &'a [u8],
    after: &'a [u8],
}

impl<const STRIDE: usize> Columns<'_, STRIDE> {
    fn differs(&self, column: usize) -> bool
        requires { column < STRIDE }
    {
        let before = self.before.iter().skip(column).step_by(STRIDE);
        let after = self.after.iter().skip(column).step_by(STRIDE);
        before.ne(after)
    }
}

impl<const STRIDE: usize> fmt::Display for Columns<'_, STRIDE> {
    fn fmt<W: fmt::Write>(&self, f: &mut fmt::Formatter<W>) -> fmt::Result {
        for column in 0..STRIDE {
            f.write_char(if self.differs(column) { 'x' } else { '.' })?;
        }
        Ok(())
    }
}

// What a call answers, to be shown.
#[derive(Clone, Copy)]
struct Answer(Result<Done, PassRefusal>);

impl fmt::Display for Answer {
    fn fmt<W: fmt::Write>(&self, f: &mut fmt::Formatter<W>) -> fmt::Result {
        match self.0 {
            Ok(
                Done {
                    count,
                    next,
                    smoothed,
                },
            ) => write!(f, "count {count}, next {next}, smoothed {smoothed}"),
            Err(refusal) => write!(f, "refused with {}", u8::from(refusal)),
        }
    }
}

// A call on a grid of two macroblocks.
fn filter_two(planes: &mut Samples, start: usize, allowance: usize) -> Answer {
    let lists: Lists<2> = zeros();
    let mut picture = planes.lend_mut();
    let config = settings(Filter::Normal, 63);
    let answer = filter_frame(
        &mut picture,
        layout(2),
        lists.key(),
        config,
        start,
        allowance,
    );
    Answer(answer)
}

// N: halted after one macroblock, then resumed. O: starts 2 and 3.
fn two_macroblocks(rt: &impl Print) -> io::Result<()> {
    let mut planes = stepped(16, 8);
    println!(rt; "N first call: {}", filter_two(&mut planes, 0, 1))?;
    let halted = planes;
    println!(rt; "N second call: {}", filter_two(&mut planes, 1, 1))?;
    let y: Columns<'_, 32> = Columns {
        before: &halted.y,
        after: &planes.y,
    };
    println!(rt; "N columns that it changes, y: {y}")?;
    let u: Columns<'_, 16> = Columns {
        before: &halted.u,
        after: &planes.u,
    };
    println!(rt; "N columns that it changes, u: {u}")?;
    let v: Columns<'_, 16> = Columns {
        before: &halted.v,
        after: &planes.v,
    };
    println!(rt; "N columns that it changes, v: {v}")?;
    println!(rt; "O start 2: {}", filter_two(&mut planes, 2, 5))?;
    println!(rt; "O start 3: {}", filter_two(&mut planes, 3, 5))
}

fn main(rt: HostRuntime) -> io::Result<()> {
    one_macroblock(&rt)?;
    two_macroblocks(&rt)
}
