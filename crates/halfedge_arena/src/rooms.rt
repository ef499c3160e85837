//! Room for numbers: their rows, chains and nodes.
ghost use Rattle.std.specs.Prelude.{◌≡◌, ◌≤◌, true, OnOk, IsOk};
ghost use Rattle.arena_rows.specs.Common.{has_room, HasGrown};

use crate::arena::Arena;
use boundary_model::{Kind, NUMBER_LIMIT};
use std::alloc::AllocError;

/// How many numbers get their room at a time, so that memory is seldom asked for.
const STEP: u32 = 64;

impl Arena {
    /// Gives a number of a kind, from 1 to 1,000,000, its room. The model stays, and each number that had its room keeps it.
    ///
    /// An `Err` comes only if memory is short and the number had no room. The model stays then too, and so does all room.
    pub fn room_for(&mut self, kind: Kind, number: u32) -> Result<(), AllocError>
        requires least { 1 ≤ number }
        requires most { number ≤ 1000000 }
        ensures grown { HasGrown self.old self.new }
        ensures ok { OnOk result (has_room self.new kind number ≡ true) }
        ensures known { has_room self.old kind number ≡ true → IsOk result }
    {
        if self.has_room(kind, number) {
            return Ok(());
        }
        self.make_room(kind, number)
    }

    /// Gives a number of a kind its room, as `room_for` does, if it is known that it has none: this doesn't ask first.
    ///
    /// If the number has its room, it keeps it, but an `Err` may come all the same.
    #[inline(always)]
    pub fn make_room(&mut self, kind: Kind, number: u32) -> Result<(), AllocError>
        requires least { 1 ≤ number }
        requires most { number ≤ 1000000 }
        ensures grown { HasGrown self.old self.new }
        ensures ok { OnOk result (has_room self.new kind number ≡ true) }
    {
        match kind {
            Kind::Solid => self.room_solids(number),
            Kind::Face => self.room_faces(number),
            Kind::Loop => self.room_loops(number),
            Kind::Edge => self.room_edges(number),
            Kind::Vertex => self.room_vertices(number),
        }
    }

    fn room_solids(&mut self, number: u32) -> Result<(), AllocError>
        requires least { 1 ≤ number }
        requires most { number ≤ 1000000 }
        ensures grown { HasGrown self.old self.new }
        ensures ok { OnOk result (has_room self.new Kind.Solid number ≡ true) }
    {
        let last = last_of_step(number);
        self.solid_faces.reach_owner(last)?;
        self.solids.reach(last)
    }

    fn room_faces(&mut self, number: u32) -> Result<(), AllocError>
        requires least { 1 ≤ number }
        requires most { number ≤ 1000000 }
        ensures grown { HasGrown self.old self.new }
        ensures ok { OnOk result (has_room self.new Kind.Face number ≡ true) }
    {
        let last = last_of_step(number);
        self.solid_faces.reach_item(last)?;
        self.face_loops.reach_owner(last)?;
        self.faces.reach(last)
    }

    fn room_loops(&mut self, number: u32) -> Result<(), AllocError>
        requires least { 1 ≤ number }
        requires most { number ≤ 1000000 }
        ensures grown { HasGrown self.old self.new }
        ensures ok { OnOk result (has_room self.new Kind.Loop number ≡ true) }
    {
        let last = last_of_step(number);
        self.face_loops.reach_item(last)?;
        self.loops.reach(last)
    }

    fn room_edges(&mut self, number: u32) -> Result<(), AllocError>
        requires least { 1 ≤ number }
        requires most { number ≤ 1000000 }
        ensures grown { HasGrown self.old self.new }
        ensures ok { OnOk result (has_room self.new Kind.Edge number ≡ true) }
    {
        self.rings.room_edge(number)
    }

    fn room_vertices(&mut self, number: u32) -> Result<(), AllocError>
        requires least { 1 ≤ number }
        requires most { number ≤ 1000000 }
        ensures grown { HasGrown self.old self.new }
        ensures ok { OnOk result (has_room self.new Kind.Vertex number ≡ true) }
    {
        self.vertices.reach(last_of_step(number))
    }
}

/// The last number of the step in which a number stands.
fn last_of_step(number: u32) -> u32
    requires { number ≤ 1000000 }
    ensures from { number ≤ result }
    ensures limit { result ≤ 1000000 }
{
    let last = number / STEP * STEP + (STEP - 1);
    if last < NUMBER_LIMIT {
        last
    } else {
        NUMBER_LIMIT
    }
}
