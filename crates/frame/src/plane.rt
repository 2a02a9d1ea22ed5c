// One plane of a macroblock, its edges in order (RFC 6386, section 15.1): left border,
// inner vertical edges, upper border, inner horizontal edges.
ghost use Rattle.std.specs.Prelude.{◌≡◌, ◌*◌, ◌-◌, ◌/◌, length};
ghost use Rattle.planes.specs.Edges.{vertical, horizontal};
ghost use Rattle.frame.specs.Private.PlaneEdges.{Inside, Did, place_of, positions_of, left_from, top_from, inner_from, plane_from};

use crate::edge::Edge;
use edges::length::{EdgeLength, Samples};
use edges::place::EdgePlace;

// A macroblock's square in a plane: `corner` is the index of its first sample, `row` and `column` are the macroblock's.
#[derive(Clone, Copy)]
pub(crate) struct Square {
    pub(crate) stride: usize,
    pub(crate) corner: usize,
    pub(crate) row: usize,
    pub(crate) column: usize,
}

impl Square {
    // The place of an edge in this plane, whose first tap is sample `at`.
    fn place(self, at: usize) -> EdgePlace
        ensures { result ≡ place_of self at }
    {
        EdgePlace {
            stride: self.stride,
            at,
        }
    }
}

// Plane and square apart, here and below: a struct of both would hold the plane by reference, with a fact to prove after each write.
// Left and upper border are functions apart, and so are the inner edges: horizontal ones are rows apart and not samples, as in the
// definition, and one function with the direction as a const parameter would have an `if` around each of the lines that differ.
fn left<E: Edge<N>, const N: usize>(edge: E, plane: &mut [u8], square: Square) -> usize
where
    Samples: EdgeLength<N>,
    requires { Inside N square (length plane.old) }
    ensures { Did N (left_from (E.kernel edge) N square) plane.old plane.new result }
{
    if 0 < square.column {
        edge.vertical(plane, square.place(square.corner - E::HALF))
    } else {
        0
    }
}

fn inner_vertical<E: Edge<N>, const N: usize>(
    edge: E,
    plane: &mut [u8],
    square: Square,
    inside: bool,
) -> usize
where
    Samples: EdgeLength<N>,
    requires { Inside N square (length plane.old) }
    ensures { Did (N * (N / 4 - 1)) (inner_from vertical (E.kernel edge) inside N square) plane.old plane.new result }
{
    if !inside {
        return 0;
    }
    let mut smoothed = 0;
    for n in 1..N / 4 {
        let at = square.corner + (4 * n - E::HALF);
        smoothed += edge.vertical(plane, square.place(at));
    }
    smoothed
}

fn top<E: Edge<N>, const N: usize>(edge: E, plane: &mut [u8], square: Square) -> usize
where
    Samples: EdgeLength<N>,
    requires { Inside N square (length plane.old) }
    ensures { Did N (top_from (E.kernel edge) N square) plane.old plane.new result }
{
    if 0 < square.row {
        let at = square.corner - E::HALF * square.stride;
        edge.horizontal(plane, square.place(at))
    } else {
        0
    }
}

fn inner_horizontal<E: Edge<N>, const N: usize>(
    edge: E,
    plane: &mut [u8],
    square: Square,
    inside: bool,
) -> usize
where
    Samples: EdgeLength<N>,
    requires { Inside N square (length plane.old) }
    ensures { Did (N * (N / 4 - 1)) (inner_from horizontal (E.kernel edge) inside N square) plane.old plane.new result }
{
    if !inside {
        return 0;
    }
    let mut smoothed = 0;
    for n in 1..N / 4 {
        let at = square.corner + (4 * n - E::HALF) * square.stride;
        smoothed += edge.horizontal(plane, square.place(at));
    }
    smoothed
}

pub(crate) fn filter_plane<A: Edge<N>, B: Edge<N>, const N: usize>(
    outer: A,
    inner: B,
    plane: &mut [u8],
    square: Square,
    inside: bool,
) -> usize
where
    Samples: EdgeLength<N>,
    requires { Inside N square (length plane.old) }
    ensures { Did (positions_of N) (plane_from (A.kernel outer) (B.kernel inner) inside N square) plane.old plane.new result }
{
    let a = left(outer, plane, square);
    let b = a + inner_vertical(inner, plane, square, inside);
    let c = b + top(outer, plane, square);
    c + inner_horizontal(inner, plane, square, inside)
}
