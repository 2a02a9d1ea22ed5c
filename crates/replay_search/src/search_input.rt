// The blocks of a recorded search.
use levels::config::FrameFilterConfig;
use planes::layout::PlaneLayout;
use planes::picture::Picture;
use recording::input::{
    Blocks, Place, Recorded, next_refusal, next_size, next_u8, read_place, read_settings,
};
use recording::picture::Planes;
use search::answers::FilterParams;
use search::candidates::Pair;
use search::input::SearchInput;
use std::io;
use std::io::Read;
use sums::source::SourcePlanes;

// Scratch planes. y and u are shorter than those of a picture, so that they alone can be too short.
pub type Scratch = Planes<1264, 344, 352>;

// The reconstruction's grid and settings, and the size and strides of the source.
#[derive(Clone, Copy)]
pub struct Task {
    layout: PlaneLayout,
    config: FrameFilterConfig,
    width: usize,
    height: usize,
    y_stride: usize,
    uv_stride: usize,
}

// The size of the source stands where a pass has its start and its allowance.
pub fn read_task(input: &mut Blocks<impl Read>) -> io::Result<Task> {
    let Place {
        layout,
        start: width,
        allowance: height,
    } = read_place(input)?;
    let config = read_settings(input)?;
    let block: [u8; 8] = input.read_array()?;
    let mut from = &block[..];
    Ok(Task {
        layout,
        config,
        width,
        height,
        y_stride: next_size(&mut from)?,
        uv_stride: next_size(&mut from)?,
    })
}

impl Task {
    // The search on a reconstruction, against the planes of a source.
    pub fn on<'a>(self, picture: Picture<'a>, source: Picture<'a>) -> SearchInput<'a> {
        let Task {
            layout,
            config,
            width,
            height,
            y_stride,
            uv_stride,
        } = self;
        let Picture { y, u, v } = source;
        let source = SourcePlanes {
            width,
            height,
            y,
            u,
            v,
            y_stride,
            uv_stride,
        };
        SearchInput {
            picture,
            layout,
            config,
            source,
        }
    }
}

// What a search answers: its refusal or its choice.
pub fn read_choice(input: &mut Blocks<impl Read>) -> io::Result<Recorded<FilterParams>> {
    let block: [u8; 7] = input.read_array()?;
    let mut from = &block[..];
    let refusal = next_refusal(&mut from)?;
    let pair = Pair {
        level: next_u8(&mut from)?,
        sharpness: next_u8(&mut from)?,
    };
    let value = FilterParams {
        pair,
        count: next_size(&mut from)?,
    };
    Ok(Recorded { refusal, value })
}
