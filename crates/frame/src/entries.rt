// The entries of a picture's macroblocks as callers lend them: byte lists, one entry a
// macroblock, or a list of records (document 01, Option lists).
ghost use Rattle.std.specs.Prelude.{◌≡◌, ◌||◌};
ghost use Rattle.calls.specs.Entries.{segment_byte, inter_record};
ghost use Rattle.calls.specs.Pass.{inside_of, is_b};

use calls::records::MacroblockModes;
use judge::entries::{Entries, MacroblockPlan, any_above, bad_entries, length_is_not};
use levels::cases::{inter_mode_of, mode_of, reference_of};
use levels::config::FrameFilterConfig;
use levels::modes::{IntraYMode, Prediction};

// The byte lists of the key pass, which reads no others.
#[derive(Clone, Copy)]
pub struct KeyLists<'a> {
    pub modes: &'a [u8],
    pub segments: &'a [u8],
    pub flags: &'a [u8],
}

// The byte lists of the inter pass: those of the key pass, and two more.
#[derive(Clone, Copy)]
pub struct InterLists<'a> {
    pub key: KeyLists<'a>,
    pub references: &'a [u8],
    pub inter_modes: &'a [u8],
}

// Records for the key pass, which ignores reference and inter mode.
#[derive(Clone, Copy)]
pub struct KeyRecords<'a> {
    pub list: &'a [MacroblockModes],
}

// Records for the inter pass, which reads all of a record. Not one type with the key pass: which pass it is goes by the type.
#[derive(Clone, Copy)]
pub struct InterRecords<'a> {
    pub records: KeyRecords<'a>,
}

// Each of the four plans reads its own entries: three byte lists, five, or one list of records, with a reference or without. One plan of
// all would carry a reference and an inter mode through the key pass, which has none.
impl<'a> Entries for KeyLists<'a> {
    ghost use Rattle.std.specs.Prelude.{◌<◌, length};
    ghost use Rattle.calls.specs.Entries.{KeyCarried};
    ghost use Rattle.calls.specs.Pass.{key_pass};
    ghost use Rattle.calls.specs.PassCalls.{key_lists};
    ghost use Rattle.frame.specs.Private.EntryPlaces.{key_has};

    ghost pass = { key_pass };

    ghost carried = { λ l. KeyCarried.byte_lists (key_lists l.modes.now l.segments.now l.flags.now) };

    ghost has = { λ l m. (m < length l.modes.now) × (m < length l.segments.now) × (m < length l.flags.now) };

    #[tactic(auto, unfolding(calls::specs::Entries::key_lengths_wrong))]
    fn wrong_length(self, n: usize) -> bool {
        length_is_not(self.modes, n)
            | length_is_not(self.segments, n)
            | length_is_not(self.flags, n)
    }

    #[tactic(auto, unfolding(calls::specs::Entries::key_bad_entry, levels::specs::Encodings::bad_mode))]
    fn bad_entry(self) -> bool {
        any_above(self.modes, 4)
    }

    #[tactic(auto, unfolding(calls::specs::Pass::key_plan, calls::specs::Pass::inside_of, calls::specs::Entries::key_entry, calls::specs::Entries::entry_of), using(calls::proofs::EntryLaws::key_level_min))]
    fn plan(self, config: FrameFilterConfig, m: usize) -> MacroblockPlan {
        let mode = mode_of(self.modes[m]);
        let level = config.key_mb_level(self.segments[m], mode);
        let inside = inner_edges(mode, self.flags[m] != 0);
        MacroblockPlan { level, inside }
    }

    ghost has_each = { λ l. key_has (key_lists l.modes.now l.segments.now l.flags.now) };
}

impl<'a> Entries for InterLists<'a> {
    ghost use Rattle.std.specs.Prelude.{◌<◌, length};
    ghost use Rattle.calls.specs.Entries.{InterCarried};
    ghost use Rattle.calls.specs.Pass.{inter_pass};
    ghost use Rattle.calls.specs.PassCalls.{inter_lists};
    ghost use Rattle.frame.specs.Private.EntryPlaces.{inter_has};

    ghost pass = { inter_pass };

    ghost carried = { λ l. InterCarried.byte_lists (inter_lists l.key.modes.now l.key.segments.now l.key.flags.now l.references.now l.inter_modes.now) };

    ghost has = { λ l m. (m < length l.key.modes.now) × (m < length l.key.segments.now) × (m < length l.key.flags.now)
        × (m < length l.references.now) × (m < length l.inter_modes.now) };

    #[tactic(auto, unfolding(calls::specs::Entries::inter_lengths_wrong, calls::specs::Entries::key_lengths_wrong))]
    fn wrong_length(self, n: usize) -> bool {
        self.key.wrong_length(n)
            | length_is_not(self.references, n)
            | length_is_not(self.inter_modes, n)
    }

    #[tactic(auto, unfolding(calls::specs::Entries::inter_bad_entry))]
    fn bad_entry(self) -> bool {
        bad_entries(self.key.modes, self.references, self.inter_modes)
    }

    #[tactic(auto, unfolding(calls::specs::Pass::inter_plan, calls::specs::Pass::inside_of, calls::specs::Entries::inter_entry, calls::specs::Entries::entry_of), using(calls::proofs::EntryLaws::inter_level_min))]
    fn plan(self, config: FrameFilterConfig, m: usize) -> MacroblockPlan {
        let mode = mode_of(self.key.modes[m]);
        let reference = reference_of(self.references[m]);
        let inter_mode = inter_mode_of(self.inter_modes[m]);
        let prediction = Prediction {
            mode,
            reference,
            inter_mode,
        };
        let level = config.mb_level(self.key.segments[m], prediction);
        let inside = inner_edges(mode, self.key.flags[m] != 0);
        MacroblockPlan { level, inside }
    }

    ghost has_each = { λ l. inter_has (inter_lists l.key.modes.now l.key.segments.now l.key.flags.now l.references.now l.inter_modes.now) };
}

impl<'a> Entries for KeyRecords<'a> {
    ghost use Rattle.std.specs.Prelude.{◌<◌, length};
    ghost use Rattle.calls.specs.Entries.{KeyCarried};
    ghost use Rattle.calls.specs.Pass.{key_pass};
    ghost use Rattle.frame.specs.Private.EntryPlaces.{record_has};

    ghost pass = { key_pass };

    ghost carried = { λ l. KeyCarried.records l.list.now };

    ghost has = { λ l m. m < length l.list.now };

    fn wrong_length(self, n: usize) -> bool {
        length_is_not(self.list, n)
    }

    // No record stands for a byte that 6 refuses.
    fn bad_entry(self) -> bool {
        false
    }

    #[tactic(auto, unfolding(calls::specs::Pass::key_plan, calls::specs::Pass::inside_of, calls::specs::Entries::key_record, calls::specs::Entries::inter_record, calls::specs::Entries::no_record), using(calls::proofs::EntryLaws::key_level_min))]
    fn plan(self, config: FrameFilterConfig, m: usize) -> MacroblockPlan {
        let mb = self.list[m];
        MacroblockPlan {
            level: config.key_mb_level(segment_of(mb), mb.y_mode),
            inside: has_inner_edges(mb),
        }
    }

    ghost has_each = { λ l. record_has l.list.now };
}

impl<'a> Entries for InterRecords<'a> {
    ghost use Rattle.std.specs.Prelude.{◌<◌, length};
    ghost use Rattle.calls.specs.Entries.{InterCarried};
    ghost use Rattle.calls.specs.Pass.{inter_pass};
    ghost use Rattle.frame.specs.Private.EntryPlaces.{record_has};

    ghost pass = { inter_pass };

    ghost carried = { λ l. InterCarried.records l.records.list.now };

    ghost has = { λ l m. m < length l.records.list.now };

    fn wrong_length(self, n: usize) -> bool {
        self.records.wrong_length(n)
    }

    fn bad_entry(self) -> bool {
        self.records.bad_entry()
    }

    #[tactic(auto, unfolding(calls::specs::Pass::inter_plan, calls::specs::Pass::inside_of, calls::specs::Entries::inter_record, calls::specs::Entries::no_record), using(calls::proofs::EntryLaws::inter_level_min))]
    fn plan(self, config: FrameFilterConfig, m: usize) -> MacroblockPlan {
        let mb = self.records.list[m];
        let prediction = Prediction {
            mode: mb.y_mode,
            reference: mb.ref_frame,
            inter_mode: mb.inter_mode,
        };
        MacroblockPlan {
            level: config.mb_level(segment_of(mb), prediction),
            inside: has_inner_edges(mb),
        }
    }

    ghost has_each = { λ l. record_has l.records.list.now };
}

// The mode is B, or there are coefficients.
#[tactic(auto, unfolding(calls::specs::Pass::is_b))]
fn inner_edges(mode: IntraYMode, coded: bool) -> bool
    ensures { result ≡ (is_b mode || coded) }
{
    (mode == IntraYMode::B) | coded
}

// None counts as 0.
#[tactic(auto, unfolding(calls::specs::Entries::segment_byte))]
fn segment_of(mb: MacroblockModes) -> u8
    ensures { result ≡ segment_byte mb.segment_id }
{
    mb.segment_id.unwrap_or(0)
}

// As `inner_edges`.
#[tactic(auto, unfolding(calls::specs::Pass::inside_of, calls::specs::Entries::inter_record, calls::specs::Pass::is_b))]
fn has_inner_edges(mb: MacroblockModes) -> bool
    ensures { result ≡ inside_of (inter_record mb) }
{
    inner_edges(mb.y_mode, mb.has_coeffs)
}
