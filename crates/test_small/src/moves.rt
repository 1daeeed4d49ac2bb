//! Worked examples of the moves.

ghost use Rattle.std.specs.Prelude.{◌≡◌, ◌<◌, IfOk, vec_capacity, vec_len};
ghost use Rattle.sw_kernel.specs.Flat.{InOrder};

use std::alloc::{AllocError, Global};
use sw_kernel::{Mark, ripple_in, ripple_out, split};
use sw_rows::Bound;

/// A piece, the bound at which it is parted, how many are left of it, and the piece then.
#[derive(Debug)]
struct Piece {
    head: &'static [i64],
    tail: &'static [i64],
    bound: Bound,
    left: usize,
    head_then: &'static [i64],
    tail_then: &'static [i64],
}

const PIECES: &[Piece] = &[
    Piece {
        head: &[12, 3, 12, 20],
        tail: &[1, 2, 3, 4],
        bound: Bound::Before(10),
        left: 1,
        head_then: &[3, 12, 12, 20],
        tail_then: &[2, 1, 3, 4],
    },
    Piece {
        head: &[5, 1, 4, 2],
        tail: &[10, 20, 30, 40],
        bound: Bound::Before(3),
        left: 2,
        head_then: &[2, 1, 4, 5],
        tail_then: &[40, 20, 30, 10],
    },
    Piece {
        head: &[5, 5, 5],
        tail: &[1, 2, 3],
        bound: Bound::After(5),
        left: 3,
        head_then: &[5, 5, 5],
        tail_then: &[1, 2, 3],
    },
    Piece {
        head: &[],
        tail: &[],
        bound: Bound::Before(0),
        left: 0,
        head_then: &[],
        tail_then: &[],
    },
];

/// Whether a piece is parted as it is said.
fn is_parted(alloc: Global, piece: &Piece) -> Result<bool, AllocError> {
    let mut head = Vec::from_slice(alloc, piece.head)?;
    let mut tail = Vec::from_slice(alloc, piece.tail)?;
    if head.len() != tail.len() {
        return Ok(false);
    }
    let left = split(&mut head, &mut tail, piece.bound);
    let are_moved = head.as_slice() == piece.head_then && tail.as_slice() == piece.tail_then;
    Ok(are_moved && left == piece.left)
}

#[test]
fn worked_pieces_are_parted(rt: HostRuntime) -> Result<(), AllocError> {
    for piece in PIECES {
        assert!(rt; is_parted(rt.alloc(), piece)?, "{piece:?}");
    }
    Ok(())
}

/// Head, tail and marks.
type Map = (Vec<i64>, Vec<i64>, [Mark; 2]);

/// The four pairs of the worked example, cut at `Before(10)` and `After(15)`, with room for one more.
fn worked_map(alloc: Global) -> Result<Map, AllocError>
    ensures lengths { IfOk result (λ m. (vec_len m.0 ≡ 4) × (vec_len m.1 ≡ 4)) }
    ensures room { IfOk result (λ m. (4 < vec_capacity m.0) × (4 < vec_capacity m.1)) }
    ensures order { IfOk result (λ m. InOrder 0 4 m.2) }
{
    let mut head = vec![in alloc; 3i64, 12, 12, 20]?;
    let mut tail = vec![in alloc; 2i64, 1, 3, 4]?;
    head.reserve(1)?;
    tail.reserve(1)?;
    let marks = [
        Mark {
            bound: Bound::Before(10),
            at: 1,
        },
        Mark {
            bound: Bound::After(15),
            at: 3,
        },
    ];
    Ok((head, tail, marks))
}

/// What is done with the worked example.
#[derive(Debug)]
enum Step {
    /// A pair of head and tail comes.
    In(i64, i64),
    /// The pair at a place goes.
    Out(usize),
}

/// What is done, and then head, tail and the places of both marks.
type Ripple = (Step, &'static [i64], &'static [i64], [usize; 2]);

const RIPPLES: &[Ripple] = &[
    (
        Step::In(1, 5),
        &[3, 1, 12, 12, 20],
        &[2, 5, 3, 1, 4],
        [2, 4],
    ),
    (
        Step::In(13, 5),
        &[3, 12, 12, 13, 20],
        &[2, 1, 3, 5, 4],
        [1, 4],
    ),
    (Step::Out(0), &[12, 12, 20], &[3, 1, 4], [0, 2]),
    (Step::Out(1), &[3, 12, 20], &[2, 3, 4], [1, 2]),
];

/// The worked example after a step.
fn after(alloc: Global, step: &Step) -> Result<Map, AllocError> {
    let (mut heads, mut tails, mut marks) = worked_map(alloc)?;
    match step {
        Step::In(head, tail) => ripple_in(&mut heads, &mut tails, &mut marks, *head, *tail),
        Step::Out(place) => {
            if *place < 4 {
                ripple_out(&mut heads, &mut tails, &mut marks, *place);
            }
        }
    }
    Ok((heads, tails, marks))
}

/// Whether the worked example is as it is said after a step.
fn is_rippled(alloc: Global, ripple: &Ripple) -> Result<bool, AllocError> {
    let (step, heads, tails, places) = ripple;
    let (head, tail, [first, second]) = after(alloc, step)?;
    let are_moved = head.as_slice() == *heads && tail.as_slice() == *tails;
    Ok(are_moved && [first.at, second.at] == *places)
}

#[test]
fn worked_pairs_are_rippled(rt: HostRuntime) -> Result<(), AllocError> {
    for ripple in RIPPLES {
        assert!(rt; is_rippled(rt.alloc(), ripple)?, "{ripple:?}");
    }
    Ok(())
}
