// Replays recorded sums and searches from standard input, and marks each that is answered as it was recorded.
#![tactic(auto)]

mod search_input;
mod searches;

use crate::searches::replay_search;
use recording::input::Blocks;
use recording::kinds::{Frames, Recording};
use recording::marks::{begin_section, end_recording, mark};
use std::io;

// A line. A record has four marks: both sums, and both searches. It writes all but the last itself.
// Each program has its own: what calls a closure has the `requires`, and a public function of a library has none. A trait in its place
// would need none, but an impl for each kind of record.
fn section<R: Input + Print, F: Fn(&mut Blocks<R::Reader>) -> io::Result<bool>>(
    rt: &R,
    name: &str,
    replay: F,
) -> io::Result<()>
    requires { F.IsAlwaysCallable replay }
{
    for _ in 0..begin_section(rt, name.as_bytes())? {
        let mut input = Blocks::new(rt.reader());
        let same = replay(&mut input)?;
        mark(rt, input.whole & same)?;
    }
    println!(rt)
}

fn main(rt: HostRuntime) -> io::Result<()> {
    for (name, frames, recording) in [
        (
            "reconstruction_ssd, reconstruction_ssd_from, select_filter_params, select_filter_level",
            Frames::Key,
            Recording::Planes,
        ),
        (
            "reconstruction_ssd, reconstruction_ssd_from, select_filter_params_inter, select_filter_level_inter",
            Frames::Inter,
            Recording::Planes,
        ),
        (
            "reconstruction_ssd, reconstruction_ssd_from, select_filter_params, select_filter_level, nothing changes",
            Frames::Key,
            Recording::NoPlanes,
        ),
        (
            "reconstruction_ssd, reconstruction_ssd_from, select_filter_params_inter, select_filter_level_inter, nothing changes",
            Frames::Inter,
            Recording::NoPlanes,
        ),
    ] {
        section(
            &rt,
            name,
            |input| replay_search(&rt, input, frames, recording),
        )?;
    }
    end_recording(&rt)
}
