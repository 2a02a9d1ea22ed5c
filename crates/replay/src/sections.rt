// The lines of the output.
use recording::input::Blocks;
use recording::marks::{begin_section, mark};
use std::io;

// A line: its name, and a mark for each of its records, or for the last call of a record that marks those before it.
// Each program has its own: what calls a closure has the `requires`, and a public function of a library has none. A trait in its place
// would need none, but an impl for each kind of record.
pub(crate) fn section<R: Input + Print, F: Fn(&mut Blocks<R::Reader>) -> io::Result<bool>>(
    rt: &R,
    name: &str,
    replay: F,
) -> io::Result<()>
    requires { F.IsAlwaysCallable replay }
{
    for _ in 0..begin_section(rt, name.as_bytes())? {
        let mut input = Blocks::new(rt.reader());
        let same = replay(&mut input)?;
        mark(rt, input.whole & same)?;
    }
    println!(rt)
}
