//! Operators on rings, packed.
ghost use Rattle.std.specs.Prelude.{◌≡◌, true};
ghost use Rattle.undo_journal.specs.Rings.{ring_op};
ghost use Rattle.undo_journal.specs.Told.{is_on_rings};

use euler_operators::{HalfEdge, Op, PackedCorner};

/// An operator on rings. Two of them take no more than one `Op`.
#[derive(Drop)]
pub(crate) enum RingOp {
    Kemr(HalfEdge, u32),
    Mekr(PackedCorner, PackedCorner, HalfEdge),
    Kfmrh(u32, u32),
    Mfkrh(u32, u32),
    RingIn(u32, u32),
    RingOut(u32, u32),
    Outer(u32, u32),
}

const _: () = prove!(size_of::<RingOp>() <= 24);

impl RingOp {
    /// The operator, packed.
    pub(crate) fn of(op: Op) -> Self
        requires { is_on_rings op ≡ true }
        ensures { ring_op result ≡ op }
    {
        match op {
            Op::Kemr(half, ring) => RingOp::Kemr(half, ring),
            Op::Mekr(from, to, half) => RingOp::Mekr(from, to, half),
            Op::Kfmrh(kept, killed) => RingOp::Kfmrh(kept, killed),
            Op::Mfkrh(ring, face) => RingOp::Mfkrh(ring, face),
            Op::RingIn(ring, face) => RingOp::RingIn(ring, face),
            Op::RingOut(ring, face) => RingOp::RingOut(ring, face),
            Op::Outer(ring, face) => RingOp::Outer(ring, face),
            _ => unreachable!(),
        }
    }

    /// The operator that was packed.
    pub(crate) fn op(&self) -> Op
        ensures { result ≡ ring_op self.now }
    {
        match self {
            RingOp::Kemr(half, ring) => Op::Kemr(*half, *ring),
            RingOp::Mekr(from, to, half) => {
                Op::Mekr(from.corner().packed(), to.corner().packed(), *half)
            }
            RingOp::Kfmrh(kept, killed) => Op::Kfmrh(*kept, *killed),
            RingOp::Mfkrh(ring, face) => Op::Mfkrh(*ring, *face),
            RingOp::RingIn(ring, face) => Op::RingIn(*ring, *face),
            RingOp::RingOut(ring, face) => Op::RingOut(*ring, *face),
            RingOp::Outer(ring, face) => Op::Outer(*ring, *face),
        }
    }
}
