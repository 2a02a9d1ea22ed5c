// What a call of a pass carries for its macroblocks, and what the judge reads of byte lists: refusal 6 over whole lists.
ghost use Rattle.std.specs.Prelude.{◌||◌, ◌≡◌, ◌<◌, ltb, ℕ, false};
ghost use Rattle.std.specs.List.{list_any};
ghost use Rattle.levels.specs.Encodings.{bad_mode, bad_reference, bad_inter_mode};
ghost use Rattle.calls.specs.Entries.{length_is_not};
ghost use Rattle.calls.specs.Pass.{Pass, plan_at};

use levels::config::FrameFilterConfig;

// What the settings and its entry ask for one macroblock: its level, and whether its inner edges are filtered.
#[derive(Clone, Copy, Debug, PartialEq, Eq)]
pub struct MacroblockPlan {
    pub level: u8,
    // Has a value at level 0 too, where nothing reads it: an Option in its place would be opened where the level is tested already.
    pub inside: bool,
}

// The entries of a picture's macroblocks, for the key pass or for the inter pass.
pub trait Entries: Copy {
    // The pass, and what it takes the entries for.
    ghost pass: { Pass };

    ghost carried: { Self → pass.Carried };

    // Macroblock m has its entry.
    ghost has: { Self → ℕ → Type 0 };

    // 5: there is not one entry for each of n macroblocks.
    fn wrong_length(self, n: usize) -> bool
        ensures { result ≡ pass.wrong_length (carried self) n };

    // 6: a byte of an entry has no case.
    fn bad_entry(self) -> bool
        ensures { result ≡ pass.bad_entry (carried self) };

    fn plan(self, config: FrameFilterConfig, m: usize) -> MacroblockPlan
        requires { has self m }
        ensures { plan_at config result.level result.inside ≡ pass.plan config (pass.entry (carried self) m) };

    ghost has_each: { (x : Self) (n m : ℕ) → pass.wrong_length (carried x) n ≡ false → m < n → has x m };
}

// Some byte is above `most`. Not `any`, which would stop at the first: without a branch the loop is done several bytes at a time.
#[tactic(auto, using(std::proofs::lemmas::List::Folds::list_any_more))]
pub fn any_above(list: &[u8], most: u8) -> bool
    ensures { result ≡ list_any (ltb most) list.now }
{
    let mut found = false;
    for byte in list {
        found |= most < *byte;
    }
    found
}

// 6 in the inter pass: a mode above 4, a reference above 3 or an inter mode above 5. Three lists and no list of entries, as callers lend
// them by document 01.
#[tactic(auto, unfolding(levels::specs::Encodings::bad_mode, levels::specs::Encodings::bad_reference, levels::specs::Encodings::bad_inter_mode))]
pub fn bad_entries(modes: &[u8], references: &[u8], inter_modes: &[u8]) -> bool
    ensures { result ≡ (list_any bad_mode modes.now || list_any bad_reference references.now || list_any bad_inter_mode inter_modes.now) }
{
    let mode = any_above(modes, 4);
    let reference = any_above(references, 3);
    let inter_mode = any_above(inter_modes, 5);
    mode | reference | inter_mode
}

// The length of a list is not n, which goes beside it: it is the grid's number of macroblocks, and no length of the list's own.
#[tactic(auto, unfolding(calls::specs::Entries::length_is_not))]
pub fn length_is_not<T>(list: &[T], n: usize) -> bool
    ensures { result ≡ length_is_not n list.now }
{
    list.len() != n
}
