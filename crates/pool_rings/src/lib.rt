#![tactic(auto)]
//! The rings of a pool, and what a splice makes of them. The functions do nothing: their contracts are what is proved. The laws hold for
//! any pool whose successors are the live codes, each once, as those of `Rings` are; and for any two such pools of which the second is the
//! first with two successors exchanged, as the contract of `Rings::splice` says.

ghost use Rattle.pool_rings.specs.Laws.{EachCodeHasItsRing, RingsAreRotations, CodesShareOrHaveTwo, SplicedPoolsCut, SplicedPoolsJoin, SplicedPoolsKeepOthers, SplicedPoolsStay, PoolsLeadBack};

/// Each live code stands in one ring: there is a ring through it, and all rings through it are the same ring, read from different codes on.
/// So two live codes either share a ring or have two rings without a common code, and `splices_of_pools` leaves no case out.
pub fn codes_have_one_ring()
    ensures there { EachCodeHasItsRing }
    ensures one { RingsAreRotations }
    ensures two { CodesShareOrHaveTwo }
{}

/// A splice of a pool at two codes cuts the ring in which both stand, or joins the two rings in which they stand. It keeps every other
/// ring, and changes nothing if the two are one code. In a pool only one code leads to another, so the answer of `prev` is the code from
/// which `next` leads to this one.
pub fn splices_of_pools()
    ensures cut { SplicedPoolsCut }
    ensures joined { SplicedPoolsJoin }
    ensures others { SplicedPoolsKeepOthers }
    ensures one { SplicedPoolsStay }
    ensures back { PoolsLeadBack }
{}
