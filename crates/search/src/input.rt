// What a search is lent besides the entries and the scratch planes.
use levels::config::FrameFilterConfig;
use planes::layout::PlaneLayout;
use planes::picture::Picture;
use sums::source::SourcePlanes;

// The reconstruction, its grid and settings, and the source. Entries go beside it: the check does not cover a struct that holds a value
// of a type parameter and is used again after it was copied.
#[derive(Clone, Copy)]
pub struct SearchInput<'a> {
    pub picture: Picture<'a>,
    pub layout: PlaneLayout,
    pub config: FrameFilterConfig,
    pub source: SourcePlanes<'a>,
}
