//! The table of labels: for which loop each stands, and which are free.
ghost use Rattle.std.specs.Prelude.{◌≡◌, ◌+◌, ◌<◌, ◌≤◌, length, [], OnOk, IfOk, IsOk, vec_capacity};
ghost use Rattle.arena_rows.specs.ring_spots.Labels.{loop_at, StandsFor, CanHandOut, IsHandedOut, IsTakenBack, HaveMoreRoom};

use std::alloc::{AllocError, Global};

/// The labels that were handed out so far, from 0 on.
///
/// Label 0 stands for no loop. Each other label is that of a ring, or it is free. It gets its row when it is first handed out, so that no more rows
/// are touched than there were labels at a time.
#[derive(Drop)]
pub struct Labels {
    /// The loop for which each label stands, or 0; for a free label, the next free one, or 0.
    loops: Vec<u32>,
    /// The first free label, or 0.
    free: u32,
}

/// No label, and no room. It takes no memory.
pub(crate) fn new(alloc: Global) -> Labels
    ensures rows { result.loops.items ≡ [] }
    ensures free { result.free ≡ 0 }
    ensures room { vec_capacity result.loops ≡ 0 }
{
    Labels {
        loops: Vec::new(alloc),
        free: 0,
    }
}

/// Equal labels with as much room, in memory of their own.
pub(crate) fn copy(labels: &Labels, alloc: Global) -> Result<Labels, AllocError>
    requires { 0 < vec_capacity labels.now.loops → 0 < length labels.now.loops.items }
    ensures rows { IfOk result (λ copy. copy.loops.items ≡ labels.now.loops.items) }
    ensures room { IfOk result (λ copy. HaveMoreRoom labels.now copy) }
{
    let mut loops = Vec::new(alloc);
    if labels.loops.len() != 0 {
        loops.reserve(labels.loops.capacity())?;
        loops.extend_from_slice(&labels.loops)?;
    }
    Ok(Labels {
        loops,
        free: labels.free,
    })
}

/// The loop for which a label stands, or 0.
pub(crate) fn loop_at(labels: &Labels, label: u32) -> u32
    requires { label < length labels.now.loops.items }
    ensures { result ≡ loop_at labels.now.loops.items label }
{
    labels.loops[label as usize]
}

/// Makes a label stand for a loop, or for none if l is 0.
pub(crate) fn stand_for(labels: &mut Labels, label: u32, l: u32)
    requires { label < length labels.old.loops.items }
    ensures { StandsFor labels.old labels.new label l }
{
    labels.loops[label as usize] = l;
}

/// Hands out a label, which stands for loop l, or for none if l is 0. It takes no memory.
pub(crate) fn hand_out(labels: &mut Labels, l: u32) -> u32
    requires { CanHandOut labels.old }
    ensures { IsHandedOut labels.old labels.new result l }
{
    let label = labels.free;
    if label == 0 {
        let new = labels.loops.len() as u32;
        labels.loops.push_reserved(l);
        return new;
    }
    labels.free = labels.loops[label as usize];
    stand_for(labels, label, l);
    label
}

/// Takes a label back, unless it is 0.
pub(crate) fn take_back(labels: &mut Labels, label: u32)
    requires { label < length labels.old.loops.items }
    ensures { IsTakenBack labels.old labels.new label }
{
    if label != 0 {
        labels.loops[label as usize] = labels.free;
        labels.free = label;
    }
}

/// Makes room for the label of a code. If there is room already, this is one test, and no `Err` comes.
pub(crate) fn reach(labels: &mut Labels, code: u32) -> Result<(), AllocError>
    requires { code ≤ 2000001 }
    ensures grown { HaveMoreRoom labels.old labels.new }
    ensures ok { OnOk result (code + 2 < vec_capacity labels.new.loops) }
    ensures known { code + 2 < vec_capacity labels.old.loops → IsOk result }
{
    if (code as usize) + 2 < labels.loops.capacity() {
        return Ok(());
    }
    widen(labels, code)
}

/// Makes room for the label of a code, and the row of label 0.
#[inline(never)]
fn widen(labels: &mut Labels, code: u32) -> Result<(), AllocError>
    requires { code ≤ 2000001 }
    ensures grown { HaveMoreRoom labels.old labels.new }
    ensures ok { OnOk result (code + 2 < vec_capacity labels.new.loops) }
{
    labels.loops.reserve(count_for(code))?;
    if labels.loops.is_empty() {
        labels.loops.push_reserved(0);
    }
    Ok(())
}

/// For how many labels there is room once there is room for that of a code. Rows that aren't written cost no memory, so if many are needed, there is
/// room for all.
fn count_for(code: u32) -> usize
    requires { code ≤ 2000001 }
    ensures { code + 2 < result }
{
    if code < 62 {
        64
    } else if code < 1022 {
        1024
    } else {
        2000004
    }
}
