// Numbers stored as samples in the middle of a window, from its sample (W - N) / 2 on: as they are, and cut to 0..255.
ghost use Rattle.std.specs.Prelude.{◌≡◌, ◌-◌, ◌/◌, ◌≤◌, if◌then◌else◌};
ghost use Rattle.std.specs.List.{list_all};
ghost use Rattle.kernels.specs.Private.Windows as win;

fn in_byte(v: i64) -> bool
    ensures { result ≡ win.in_byte v }
{
    (0..256).contains(&v)
}

fn cut(v: i64) -> u8
    ensures { result ≡ win.cut v }
{
    v.clamp(0, 255) as u8
}

// Not `all`, which would stop at the first: without a branch one comparison is enough for all of them.
#[tactic(auto, using(std::proofs::lemmas::List::Folds::list_all_more))]
fn are_bytes<const N: usize>(values: &[i64; N]) -> bool
    ensures { result ≡ list_all win.in_byte values.now }
{
    let mut all = true;
    for v in values {
        all &= in_byte(*v);
    }
    all
}

// Stores the values if all of them are bytes, and answers whether they are. All are tested, those of
// the subblock filter at the edge too, which stay bytes: so one function serves two, four and six samples.
// By index: `copy_from_slice` would want an array of the samples first, and of a
// part that is lent to `iter_mut` a proof knows only the length.
// N ≤ W is of literals that the callers name; a trait for it would have an impl for each pair.
pub(crate) fn store_plain<const W: usize, const N: usize>(
    window: &mut [u8; W],
    values: [i64; N],
) -> bool
    requires { N ≤ W }
    ensures { window.new ≡ (if result then win.stored_cut ((W - N) / 2) values.entry window.old else window.old) }
{
    if !are_bytes(&values) {
        return false;
    }
    for n in 0..N {
        window[(W - N) / 2 + n] = values[n] as u8;
    }
    true
}

// Stores the values, cut, by one index too.
pub(crate) fn store_cut<const W: usize, const N: usize>(window: &mut [u8; W], values: [i64; N])
    requires { N ≤ W }
    ensures { window.new ≡ win.stored_cut ((W - N) / 2) values.entry window.old }
{
    for n in 0..N {
        window[(W - N) / 2 + n] = cut(values[n]);
    }
}

// The same, for values of which most are bytes: one branch is then cheaper than cutting each.
pub(crate) fn store_plain_or_cut<const W: usize, const N: usize>(
    window: &mut [u8; W],
    values: [i64; N],
)
    requires { N ≤ W }
    ensures { window.new ≡ win.stored_cut ((W - N) / 2) values.entry window.old }
{
    if !store_plain(window, values) {
        store_cut(window, values);
    }
}
