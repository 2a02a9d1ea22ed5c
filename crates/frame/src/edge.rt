// The edges that a filter has in a plane (RFC 6386, sections 15.2 and 15.3): a kernel with its limits, along N samples in either direction.
ghost use Rattle.std.specs.Prelude.{◌≡◌, ℕ};
ghost use Rattle.kernels.specs.Segment.{Kernel, simple_segment, half};
ghost use Rattle.planes.specs.Edges.{vertical, horizontal};
ghost use Rattle.edges.specs.EdgeFrom.{edge_within, smoothed_within};
ghost use Rattle.edges.specs.NormalKernels.{kernel_of};
ghost use Rattle.frame.specs.Private.Halves.{normal-half, simple-half};

use arithmetic::limits::LoopFilterParams;
use edges::length::{EdgeLength, Samples};
use edges::normal::NormalEdge;
use edges::place::EdgePlace;

// What does not fit is left alone.
pub(crate) trait Edge<const N: usize>: Copy {
    ghost kernel: { Self → Kernel };

    // How many samples the kernel takes on each side of the edge.
    ghost HALF: { ℕ };

    const HALF: usize;

    fn vertical(self, plane: &mut [u8], place: EdgePlace) -> usize
        ensures plane_after { plane.new ≡ edge_within vertical (kernel self) place.stride place.at N plane.old }
        ensures value { result ≡ smoothed_within vertical (kernel self) place.stride place.at N plane.old };

    fn horizontal(self, plane: &mut [u8], place: EdgePlace) -> usize
        ensures plane_after { plane.new ≡ edge_within horizontal (kernel self) place.stride place.at N plane.old }
        ensures value { result ≡ smoothed_within horizontal (kernel self) place.stride place.at N plane.old };

    ghost half_is: { (e : Self) → half (kernel e) ≡ HALF };
}

// An edge under the normal filter, of either kind, with the macroblock's limits. Its two methods name the function of their direction, as
// do those of the simple filter.
#[derive(Clone, Copy)]
pub(crate) struct Normal<E> {
    pub(crate) kind: E,
    pub(crate) limits: LoopFilterParams,
}

impl<E: NormalEdge + Copy, const N: usize> Edge<N> for Normal<E>
where
    Samples: EdgeLength<N>,
{
    ghost kernel = { λ e. kernel_of E.kernel E.edge_limit e.limits };

    ghost HALF = { 4 };

    const HALF: usize = 4;

    fn vertical(self, plane: &mut [u8], place: EdgePlace) -> usize {
        edges::vertical::normal_edge::<E, N>(plane, place, self.limits)
    }

    fn horizontal(self, plane: &mut [u8], place: EdgePlace) -> usize {
        edges::horizontal::normal_edge::<E, N>(plane, place, self.limits)
    }

    ghost half_is = { λ e. normal-half E.kind e.limits.hev_threshold e.limits.interior_limit (E.edge_limit e.limits) };
}

// Any edge of the simple filter, with its edge limit.
#[derive(Clone, Copy)]
pub(crate) struct Simple(pub(crate) u8);

impl<const N: usize> Edge<N> for Simple
where
    Samples: EdgeLength<N>,
{
    ghost kernel = { λ e. simple_segment e.0 };

    ghost HALF = { 2 };

    const HALF: usize = 2;

    fn vertical(self, plane: &mut [u8], place: EdgePlace) -> usize {
        edges::vertical::simple_edge::<N>(plane, place, self.0)
    }

    fn horizontal(self, plane: &mut [u8], place: EdgePlace) -> usize {
        edges::horizontal::simple_edge::<N>(plane, place, self.0)
    }

    ghost half_is = { λ e. simple-half e.0 };
}
