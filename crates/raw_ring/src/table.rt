//! The table of codes.
ghost use Rattle.std.specs.Prelude.{◌≡◌, ℕ, ◌<◌, ◌≤◌, [], true, false, Some, None, IsSome, length, set, OnOk};
ghost use Rattle.raw_cells.specs.Rows.{row_at, has_row};
ghost use Rattle.raw_ring.specs.Table.{LiesAt, HasLabel, woken, asleep, set_label};

use crate::node::NodePtr;
use crate::row::Row;
use raw_cells::{Cells, Rows};
use std::alloc::{AllocError, Global};
use std::marker::Model;

/// The greatest code that may be known.
const LAST_CODE: u32 = 2_000_001;

/// How many codes get room at a time, so that memory is seldom asked for.
const STEP: u32 = 64;

/// The rows of the known codes.
///
/// The places of nodes, the labels, and which codes are live are kept apart: so a row takes 13 bytes, and nothing is lost between its parts. All
/// three are written for a code when it becomes known, and only the places note that it is known, so that a change is one write. Only `reach` takes
/// memory.
#[derive(Drop)]
pub(crate) struct Table {
    places: Rows<NodePtr>,
    labels: Cells<u32>,
    lives: Cells<bool>,
}

impl Model for Table {
    ghost use Rattle.std.specs.Prelude.{List, Option};
    ghost use Rattle.raw_ring.specs.declared.row.Row.{Row};

    ghost Value = { List (Option Row) };

    ghost use Rattle.raw_ring.specs.Joined.{joined, marks, AreJoined};

    ghost view = { λ t. joined t.places (marks t.labels t.lives) };

    ghost invariant = { λ t. AreJoined t.places t.labels t.lives };
}

impl Table {
    /// No row, and no room. It takes no memory.
    pub(crate) fn new(alloc: Global) -> Table
        ensures { result ≡ [] }
    {
        Table {
            places: Rows::new(alloc),
            labels: Cells::new(alloc),
            lives: Cells::new(alloc),
        }
    }

    /// Whether a code has a row.
    pub(crate) fn has(&self, code: u32) -> bool
        ensures { result ≡ has_row self.now code }
    {
        self.places.has(code)
    }

    /// For how many codes, from 0 on, there is room.
    pub(crate) fn len(&self) -> u32
        ensures { result ≡ length self.now }
    {
        self.places.len()
    }

    /// The row of a code, if it has one.
    pub(crate) fn find(&self, code: u32) -> Option<Row>
        ensures { result ≡ row_at self.now code }
    {
        match self.places.find(code) {
            Some(at) => Some(Row {
                at,
                label: self.labels.get(code),
                live: self.lives.get(code),
            }),
            None => None,
        }
    }

    /// Where the node of a code that has a row lies.
    pub(crate) fn place(&self, code: u32) -> NodePtr
        requires { IsSome (row_at self.now code) }
        ensures { LiesAt (row_at self.now code) result }
    {
        self.places.known(code)
    }

    /// The label of a code that has a row.
    pub(crate) fn label(&self, code: u32) -> u32
        requires { IsSome (row_at self.now code) }
        ensures { HasLabel (row_at self.now code) result }
    {
        self.labels.get(code)
    }

    /// Gives a new code a row, in which it is asleep.
    pub(crate) fn add(&mut self, new_code: u32, at: NodePtr)
        requires room { new_code < length self.old }
        requires new { row_at self.old new_code ≡ None }
        ensures { self.new ≡ set self.old new_code (Some (record { at = at; label = 0; live = false })) }
    {
        self.labels.put(new_code, 0);
        self.lives.put(new_code, false);
        self.places.put(new_code, at);
    }

    /// Makes a code that has a row live, with that label.
    pub(crate) fn wake(&mut self, code: u32, label: u32)
        requires { IsSome (row_at self.old code) }
        ensures { self.new ≡ set self.old code (woken label (row_at self.old code)) }
    {
        self.labels.put(code, label);
        self.lives.put(code, true);
    }

    /// Puts a code that has a row to sleep.
    pub(crate) fn sleep(&mut self, code: u32)
        requires { IsSome (row_at self.old code) }
        ensures { self.new ≡ set self.old code (asleep (row_at self.old code)) }
    {
        self.lives.put(code, false);
    }

    /// Gives a code that has a row a label.
    pub(crate) fn set_label(&mut self, code: u32, label: u32)
        requires { IsSome (row_at self.old code) }
        ensures { self.new ≡ set self.old code (set_label label (row_at self.old code)) }
    {
        self.labels.put(code, label);
    }

    /// Makes the rows reach to a code. If they do already, this is one test, and no `Err` comes.
    pub(crate) fn reach(&mut self, code: u32) -> Result<(), AllocError>
        requires { code ≤ 2000001 }
        ensures same { (q : ℕ) → row_at self.new q ≡ row_at self.old q }
        ensures fits { length self.old ≤ 2000002 → length self.new ≤ 2000002 }
        ensures ok { OnOk result (code < length self.new) }
    {
        if code < self.places.len() {
            return Ok(());
        }
        self.widen(code)
    }

    /// Makes the rows reach to a code, and on to the end of its step.
    #[inline(never)]
    fn widen(&mut self, code: u32) -> Result<(), AllocError>
        requires { code ≤ 2000001 }
        ensures same { (q : ℕ) → row_at self.new q ≡ row_at self.old q }
        ensures fits { length self.old ≤ 2000002 → length self.new ≤ 2000002 }
        ensures ok { OnOk result (code < length self.new) }
    {
        let last = last_of_step(code);
        self.places.reach_beside(&mut self.labels, last)?;
        self.places.reach_beside(&mut self.lives, last)?;
        self.places.reach(last)
    }
}

/// The last code of the step in which a code stands.
fn last_of_step(code: u32) -> u32
    requires { code ≤ 2000001 }
    ensures from { code ≤ result }
    ensures limit { result ≤ 2000001 }
{
    let last = code / STEP * STEP + (STEP - 1);
    if last < LAST_CODE { last } else { LAST_CODE }
}
