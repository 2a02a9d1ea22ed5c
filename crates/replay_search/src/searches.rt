// The error sums and the searches. A record is one search: its sum by both of the Rust's functions, which are one here, and its choice by
// both functions.
use crate::search_input::{Scratch, Task, read_choice, read_task};
use judge::entries::Entries;
use planes::picture::PictureMut;
use recording::input::{Blocks, Recorded, read_recorded};
use recording::kinds::{Frames, Recording};
use recording::marks::mark;
use recording::picture::{Lists, Samples, read_lists, stripes};
use search::answers::{FilterLevel, FilterParams};
use search::candidates::Pair;
use search::input::SearchInput;
use search::search::{select_filter_level, select_filter_params};
use std::io;
use std::io::Read;
use sums::answers::SearchRefusal;
use sums::sums::reconstruction_ssd;

// Whether a search answers as recorded, and leaves the scratch planes so. Beside a refusal the recording has zeros.
fn is_choice<F: FnOnce(&mut PictureMut<'_>) -> Result<FilterParams, SearchRefusal>>(
    search: F,
    choice: Recorded<FilterParams>,
    after: Scratch,
) -> bool
    requires { F.IsAlwaysCallable search }
{
    let mut scratch: Scratch = stripes();
    let answer = search(&mut scratch.lend_mut());
    let refusal = answer.err().map(u8::from);
    let value = answer.unwrap_or_default();
    (choice == Recorded { refusal, value }) & (scratch == after)
}

// The search for level and sharpness, and the one for the level alone.
fn are_choices<E: Entries>(
    input: SearchInput<'_>,
    entries: E,
    choice: Recorded<FilterParams>,
    after: Scratch,
) -> [bool; 2] {
    let params = is_choice(
        |scratch| select_filter_params(input, entries, scratch),
        choice,
        after,
    );
    let with_sharpness = |FilterLevel { level, count }| FilterParams {
        pair: Pair {
            level,
            ..choice.value.pair
        },
        count,
    };
    let level = is_choice(
        |scratch| select_filter_level(input, entries, scratch).map(with_sharpness),
        choice,
        after,
    );
    [params, level]
}

// Task, lists, reconstruction, source, scratch after the search, sum and choice. Marks both sums and the search for level and sharpness;
// answers for the level alone. The sums are marked by the blocks that they need, and the searches by those that they alone need.
pub fn replay_search(
    rt: &(impl Input + Print),
    input: &mut Blocks<impl Read>,
    frames: Frames,
    recording: Recording,
) -> io::Result<bool> {
    let mut of_sum = Blocks::new(rt.reader());
    let task = read_task(&mut of_sum)?;
    let lists: Lists<4> = read_lists(input)?;
    let reconstruction: Samples = recording.read_planes(&mut of_sum)?;
    let source: Samples = recording.read_planes(&mut of_sum)?;
    let after: Scratch = recording.read_planes(input)?;
    let recorded = read_recorded(&mut of_sum)?.answer();
    let choice = read_choice(input)?;
    let search = task.on(reconstruction.lend(), source.lend());
    let sum = reconstruction_ssd(search.picture, search.layout, search.source);
    let same = of_sum.whole & (sum.map_err(u8::from) == recorded.map(|(sum, _)| sum as u64));
    mark(rt, same)?;
    mark(rt, same)?;
    let [params, level] = match frames {
        Frames::Key => are_choices(search, lists.key(), choice, after),
        Frames::Inter => are_choices(search, lists.inter(), choice, after),
    };
    mark(rt, input.whole & params)?;
    Ok(level)
}
