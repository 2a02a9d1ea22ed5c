// The passes and frame calls. Each record is one recorded call, or two.
ghost use Rattle.std.specs.Prelude.{◌≡◌, ◌≤◌};
ghost use Rattle.planes.specs.Pictures.{planes_lent, SameLoans};
ghost use Rattle.calls.specs.Answers.{Passed};
ghost use Rattle.calls.specs.PassCalls.{call_of};
ghost use Rattle.frame_calls.specs.Skip.{skipping, frame_call};
ghost use Rattle.replay.specs.declared.passes.Step.TheVariants.{Pass, FrameCall};

use crate::records::read_records;
use crate::sections::section;
use calls::answers::{Done, PassRefusal};
use calls::records::MacroblockModes;
use frame::entries::{InterRecords, KeyRecords};
use frame::pass::filter_frame;
use frame_calls::frame_call::loop_filter_frame;
use judge::entries::Entries;
use levels::config::FrameFilterConfig;
use planes::picture::PictureMut;
use recording::input::{Blocks, Place, Recorded, read_place, read_recorded, read_settings};
use recording::kinds::{Frames, Recording};
use recording::marks::mark;
use recording::picture::{Lists, Planes, Samples, read_lists, read_planes};
use std::io::Read;
use std::{fmt, io};

// A pass, or the frame call beside it. An enum: no closure takes entries of every type, and a trait would give each function from
// `call_sections` to `call_over` a type parameter for a choice that only `call_over` makes.
#[derive(Clone, Copy)]
pub enum Step {
    Pass,
    FrameCall,
}

#[derive(Clone, Copy)]
struct Call {
    step: Step,
    frames: Frames,
}

// The name of its function.
impl fmt::Display for Call {
    fn fmt<W: fmt::Write>(&self, f: &mut fmt::Formatter<W>) -> fmt::Result {
        let step = match self.step {
            Step::Pass => "",
            Step::FrameCall => "loop_",
        };
        let frames = match self.frames {
            Frames::Key => "",
            Frames::Inter => "inter_",
        };
        write!(f, "{step}filter_{frames}frame")
    }
}

// Which call, and what its record begins with: where and how it works.
#[derive(Clone, Copy)]
struct Task {
    call: Call,
    place: Place,
    config: FrameFilterConfig,
}

fn read_task(input: &mut Blocks<impl Read>, call: Call) -> io::Result<Task> {
    Ok(Task {
        call,
        place: read_place(input)?,
        config: read_settings(input)?,
    })
}

// What a call answers, the count and the next start or the number of its refusal, and what it leaves: every sample, also those outside
// the grid.
#[derive(Clone, Copy, PartialEq, Eq)]
struct Left<P> {
    answer: Result<(usize, usize), u8>,
    planes: P,
}

fn recorded_left<P: Copy>(recorded: Recorded<(usize, usize)>, planes: P) -> Left<P> {
    Left {
        answer: recorded.answer(),
        planes,
    }
}

// The task's call, on planes that are lent.
fn call_over<E: Entries>(
    task: Task,
    entries: E,
    picture: &mut PictureMut<'_>,
) -> Result<Done, PassRefusal>
    ensures loans { SameLoans picture.old picture.new }
    ensures passed { task.call.step ≡ Pass → Passed E.pass
        (call_of E.pass task.place.layout (E.carried entries) task.config (planes_lent picture.old)
        task.place.start task.place.allowance)
        result (planes_lent picture.new) }
    ensures frame_called { task.call.step ≡ FrameCall → Passed (skipping E.pass)
        (frame_call E.pass (call_of E.pass task.place.layout (E.carried entries) task.config (planes_lent picture.old)
        task.place.start task.place.allowance))
        result (planes_lent picture.new) }
{
    let Task {
        call,
        place,
        config,
    } = task;
    let Place {
        layout,
        start,
        allowance,
    } = place;
    match call.step {
        Step::Pass => filter_frame(picture, layout, entries, config, start, allowance),
        Step::FrameCall => loop_filter_frame(picture, layout, entries, config, start, allowance),
    }
}

fn over<const Y: usize, const U: usize, const V: usize, E: Entries>(
    task: Task,
    entries: E,
    mut planes: Planes<Y, U, V>,
) -> Left<Planes<Y, U, V>> {
    let mut picture = planes.lend_mut();
    let answer = call_over(task, entries, &mut picture);
    let answer = answer.map(|done| (done.count, done.next));
    Left {
        answer: answer.map_err(u8::from),
        planes,
    }
}

// Here, for records and in the other programs: key and inter entries are of two types, so that each arm has a call of its own.
fn over_lists<const Y: usize, const U: usize, const V: usize, const N: usize>(
    task: Task,
    lists: Lists<N>,
    before: Planes<Y, U, V>,
) -> Left<Planes<Y, U, V>> {
    match task.call.frames {
        Frames::Key => over(task, lists.key(), before),
        Frames::Inter => over(task, lists.inter(), before),
    }
}

// What a recorded call has for the four macroblocks of its picture. Film, of other sizes, goes by `over_lists`: the check can't state a
// method of a trait that has a const parameter, and on the trait itself three would be named at each impl and bound.
trait Listed: Copy {
    fn read(input: &mut Blocks<impl Read>) -> io::Result<Self>;

    fn filter(self, task: Task, before: Samples) -> Left<Samples>;
}

impl Listed for Lists<4> {
    fn read(input: &mut Blocks<impl Read>) -> io::Result<Self> {
        read_lists(input)
    }

    fn filter(self, task: Task, before: Samples) -> Left<Samples> {
        over_lists(task, self, before)
    }
}

impl Listed for [MacroblockModes; 4] {
    fn read(input: &mut Blocks<impl Read>) -> io::Result<Self> {
        read_records(input)
    }

    fn filter(self, task: Task, before: Samples) -> Left<Samples> {
        let key = KeyRecords { list: &self };
        match task.call.frames {
            Frames::Key => over(task, key, before),
            Frames::Inter => over(task, InterRecords { records: key }, before),
        }
    }
}

// Place, settings, lists or records, the answer, the pictures.
fn replay_call<L: Listed>(
    input: &mut Blocks<impl Read>,
    call: Call,
    recording: Recording,
) -> io::Result<bool> {
    let task = read_task(input, call)?;
    let listed = L::read(input)?;
    let recorded = read_recorded(input)?;
    let before: Samples = recording.read_planes(input)?;
    let after = recording.read_planes(input)?;
    Ok(listed.filter(task, before) == recorded_left(recorded, after))
}

// A halted call, which it marks, and the one that goes on where it ended, to the end of the grid. What the first answered and left counts for
// its own mark alone.
fn replay_halted(
    rt: &(impl Input + Print),
    input: &mut Blocks<impl Read>,
    call: Call,
) -> io::Result<bool> {
    let task = read_task(input, call)?;
    let lists: Lists<4> = read_lists(input)?;
    let before: Samples = read_planes(input)?;
    let mut of_first = Blocks::new(rt.reader());
    let halted = read_recorded(&mut of_first)?;
    let middle = read_planes(&mut of_first)?;
    let whole = input.whole & of_first.whole;
    let resumed = recorded_left(read_recorded(input)?, read_planes(input)?);
    let first = over_lists(task, lists, before);
    mark(rt, whole & (first == recorded_left(halted, middle)))?;
    let (_, start) = halted.value;
    let place = Place {
        start,
        allowance: usize::MAX,
        ..task.place
    };
    let rest = Task { place, ..task };
    Ok(over_lists(rest, lists, first.planes) == resumed)
}

// A frame of recorded film: place, settings, the answer, lists, the planes before and after.
// A caller names the sizes, and what it reads must fit in memory.
fn replay_film<const Y: usize, const U: usize, const V: usize, const N: usize>(
    input: &mut Blocks<impl Read>,
    call: Call,
) -> io::Result<bool>
    requires luma { Y ≤ 65536 }
    requires blue { U ≤ 65536 }
    requires red { V ≤ 65536 }
    requires lists { N ≤ 65536 }
{
    let task = read_task(input, call)?;
    let recorded = read_recorded(input)?;
    let lists: Lists<N> = read_lists(input)?;
    let before: Planes<Y, U, V> = read_planes(input)?;
    let after = read_planes(input)?;
    Ok(over_lists(task, lists, before) == recorded_left(recorded, after))
}

// One record. A function, since the check makes no proof of a closure that passes what it is lent on to a parameter that it calls.
fn replay_one<I: Read, F: Fn(Call, &mut Blocks<I>) -> io::Result<bool>>(
    replay: &F,
    call: Call,
    input: &mut Blocks<I>,
) -> io::Result<bool>
    requires { F.IsAlwaysCallable replay.now }
{
    replay(call, input)
}

// Two lines, of key and of inter frames: the name of the call and what its records are. The `requires` is that of `section`.
fn both_sections<R: Input + Print, F: Fn(Call, &mut Blocks<R::Reader>) -> io::Result<bool>>(
    rt: &R,
    step: Step,
    records: &str,
    replay: F,
) -> io::Result<()>
    requires { F.IsAlwaysCallable replay }
{
    for frames in [Frames::Key, Frames::Inter] {
        let call = Call { step, frames };
        print!(rt; "{call}")?;
        section(rt, records, |input| replay_one(&replay, call, input))?;
    }
    Ok(())
}

pub fn call_sections(rt: &(impl Input + Print), step: Step) -> io::Result<()> {
    both_sections(rt, step, "", |call, input| {
        replay_call::<Lists<4>>(input, call, Recording::Planes)
    })?;
    both_sections(rt, step, ", nothing changes", |call, input| {
        replay_call::<Lists<4>>(input, call, Recording::NoPlanes)
    })?;
    both_sections(rt, step, ", halted and resumed", |call, input| {
        replay_halted(rt, input, call)
    })?;
    both_sections(rt, step, "_records", |call, input| {
        replay_call::<[MacroblockModes; 4]>(input, call, Recording::Planes)
    })?;
    both_sections(rt, step, "_records, nothing changes", |call, input| {
        replay_call::<[MacroblockModes; 4]>(input, call, Recording::NoPlanes)
    })
}

// Of 64 by 64 samples, and of 16 by 16.
pub fn film_sections(rt: &(impl Input + Print)) -> io::Result<()> {
    both_sections(rt, Step::Pass, ", film 64x64", |call, input| {
        replay_film::<4096, 1024, 1024, 16>(input, call)
    })?;
    both_sections(rt, Step::Pass, ", film 16x16", |call, input| {
        replay_film::<256, 64, 64, 1>(input, call)
    })
}
