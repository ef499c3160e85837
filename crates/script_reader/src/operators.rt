//! Reads the words after the command word of each Euler operator. Each reader is a function of its own, so that no stack space is cleared for the
//! others.
ghost use Rattle.std.specs.Prelude.{◌≡◌, true};
ghost use Rattle.script_reader.specs.Grammar.{plus, asks, is_operator, arguments};
ghost use Rattle.script_reader.specs.declared.name.Name.TheVariants as name;

use super::command::Fault;
use super::name::Name;
use super::places::{Way, Words};
use euler_operators::{HalfEdge, Op};

/// The half-edge with `+` of an edge: a script gives a new edge in this way.
fn plus(edge: u32) -> HalfEdge
    ensures { result ≡ plus edge }
{
    HalfEdge { edge, first: true }
}

#[inline(never)]
#[tactic(auto, unfolding(crate::specs::Grammar::arguments))]
fn mvfs(words: &mut Words<'_>) -> Result<Op, Fault>
    ensures { asks result ≡ arguments name.Mvfs words.old }
{
    let solid = words.number()?;
    let face = words.number()?;
    let outer = words.number()?;
    let vertex = words.number()?;
    let place = words.point()?;
    words.finish()?;
    Ok(Op::Mvfs(solid, face, outer, vertex, place))
}

#[inline(never)]
#[tactic(auto, unfolding(crate::specs::Grammar::arguments))]
fn kvfs(words: &mut Words<'_>) -> Result<Op, Fault>
    ensures { asks result ≡ arguments name.Kvfs words.old }
{
    let solid = words.number()?;
    words.finish()?;
    Ok(Op::Kvfs(solid))
}

#[inline(never)]
#[tactic(auto, unfolding(crate::specs::Grammar::arguments))]
fn mev(words: &mut Words<'_>) -> Result<Op, Fault>
    ensures { asks result ≡ arguments name.Mev words.old }
{
    let from = words.corner()?;
    let to = words.corner()?;
    let edge = words.number()?;
    let vertex = words.number()?;
    let place = words.point()?;
    words.finish()?;
    Ok(Op::Mev(from.packed(), to.packed(), plus(edge), vertex, place))
}

#[inline(never)]
#[tactic(auto, unfolding(crate::specs::Grammar::arguments))]
fn kev(words: &mut Words<'_>) -> Result<Op, Fault>
    ensures { asks result ≡ arguments name.Kev words.old }
{
    let half = words.half()?;
    words.finish()?;
    Ok(Op::Kev(half))
}

#[inline(never)]
#[tactic(auto, unfolding(crate::specs::Grammar::arguments))]
fn mef(words: &mut Words<'_>) -> Result<Op, Fault>
    ensures { asks result ≡ arguments name.Mef words.old }
{
    let from = words.half()?;
    let to = words.half()?;
    let edge = words.number()?;
    let face = words.number()?;
    let outer = words.number()?;
    words.finish()?;
    Ok(Op::Mef(from, to, plus(edge), face, outer))
}

#[inline(never)]
#[tactic(auto, unfolding(crate::specs::Grammar::arguments))]
fn kef(words: &mut Words<'_>) -> Result<Op, Fault>
    ensures { asks result ≡ arguments name.Kef words.old }
{
    let half = words.half()?;
    words.finish()?;
    Ok(Op::Kef(half))
}

#[inline(never)]
#[tactic(auto, unfolding(crate::specs::Grammar::arguments))]
fn kemr(words: &mut Words<'_>) -> Result<Op, Fault>
    ensures { asks result ≡ arguments name.Kemr words.old }
{
    let half = words.half()?;
    let ring = words.number()?;
    words.finish()?;
    Ok(Op::Kemr(half, ring))
}

#[inline(never)]
#[tactic(auto, unfolding(crate::specs::Grammar::arguments))]
fn mekr(words: &mut Words<'_>) -> Result<Op, Fault>
    ensures { asks result ≡ arguments name.Mekr words.old }
{
    let from = words.corner()?;
    let to = words.corner()?;
    let edge = words.number()?;
    words.finish()?;
    Ok(Op::Mekr(from.packed(), to.packed(), plus(edge)))
}

#[inline(never)]
#[tactic(auto, unfolding(crate::specs::Grammar::arguments))]
fn kfmrh(words: &mut Words<'_>) -> Result<Op, Fault>
    ensures { asks result ≡ arguments name.Kfmrh words.old }
{
    let kept = words.number()?;
    let killed = words.number()?;
    words.finish()?;
    Ok(Op::Kfmrh(kept, killed))
}

#[inline(never)]
#[tactic(auto, unfolding(crate::specs::Grammar::arguments))]
fn mfkrh(words: &mut Words<'_>) -> Result<Op, Fault>
    ensures { asks result ≡ arguments name.Mfkrh words.old }
{
    let ring = words.number()?;
    let face = words.number()?;
    words.finish()?;
    Ok(Op::Mfkrh(ring, face))
}

#[inline(never)]
#[tactic(auto, unfolding(crate::specs::Grammar::arguments))]
fn ringmv(words: &mut Words<'_>) -> Result<Op, Fault>
    ensures { asks result ≡ arguments name.Ringmv words.old }
{
    let ring = words.number()?;
    let face = words.number()?;
    let way = words.in_or_out()?;
    let op = match way {
        Way::In => Op::RingIn(ring, face),
        Way::Out => Op::RingOut(ring, face),
    };
    words.finish()?;
    Ok(op)
}

/// The operator with this name, and with the words after it.
#[inline(always)]
pub fn operator(name: Name, words: &mut Words<'_>) -> Result<Op, Fault>
    requires { is_operator name ≡ true }
    ensures { asks result ≡ arguments name words.old }
{
    match name {
        Name::Mvfs => mvfs(words),
        Name::Kvfs => kvfs(words),
        Name::Mev => mev(words),
        Name::Kev => kev(words),
        Name::Mef => mef(words),
        Name::Kef => kef(words),
        Name::Kemr => kemr(words),
        Name::Mekr => mekr(words),
        Name::Kfmrh => kfmrh(words),
        Name::Mfkrh => mfkrh(words),
        Name::Ringmv => ringmv(words),
        _ => unreachable!(),
    }
}
