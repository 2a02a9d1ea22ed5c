// Replays recorded calls of the functions that the Rust has too, but for sums and searches, and of the frame calls, from standard input,
// and marks each that is answered as it was recorded.
#![tactic(auto)]

mod passes;
mod records;
mod sections;
mod small;

use crate::passes::{Step, call_sections, film_sections};
use crate::small::{kernel_sections, level_sections, number_sections};
use recording::marks::end_recording;
use std::io;

fn main(rt: HostRuntime) -> io::Result<()> {
    number_sections(&rt)?;
    kernel_sections(&rt)?;
    level_sections(&rt)?;
    call_sections(&rt, Step::Pass)?;
    film_sections(&rt)?;
    call_sections(&rt, Step::FrameCall)?;
    end_recording(&rt)
}
