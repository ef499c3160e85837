//! Rows by number.
ghost use Rattle.std.specs.Prelude.{◌≡◌, ◌≢◌, ℕ, ◌<◌, ◌≤◌, ◌-◌, ◌&&◌, true, cond, nat_eq, nat_le, is_some, [], length, OnOk, IfOk, IsOk, Some, None, IsSome};
ghost use Rattle.raw_cells.specs.Rows.{row_at, has_row};
ghost use Rattle.raw_cells.specs.Numbers.{IsLast, IsNext, uses};

use crate::cells::Cells;
use crate::numbers::Numbers;
use std::alloc::{AllocError, Global};
use std::marker::Model;

/// Rows by number: the numbers in use, whose cells are rows, and for how many numbers there is room.
///
/// A contract sees the list of the rows that are there, one place for each number from 0 on. Only `reach` and `copy` take memory. A cell isn't
/// written before its number comes into use, so the first row of a great number costs no more than that of a small one.
#[derive(Drop)]
pub struct Rows<T: Copy> {
    cells: Cells<T>,
    used: Numbers,
    room: u32,
}

impl<T: Copy> Model for Rows<T> {
    ghost use Rattle.std.specs.Prelude.{List, Option, take};

    ghost Value = { List (Option T) };

    ghost use Rattle.raw_cells.specs.Numbers.{uses};
    ghost use Rattle.raw_cells.specs.Rows.{rows_of, AreCells};

    ghost view = { λ a. rows_of (uses a.used) (take a.room a.cells) };

    ghost invariant = { λ a. AreCells a.cells a.used a.room };
}

impl<T: Copy> Rows<T> {
    /// No row, and no room. It takes no memory.
    pub fn new(alloc: Global) -> Self
        ensures { result ≡ [] }
    {
        Self {
            cells: Cells::new(alloc),
            used: Numbers::new(alloc),
            room: 0,
        }
    }

    /// Rows that are equal, in memory of their own. The cost is linear in the numbers for which there is room.
    pub fn copy(&self, alloc: Global) -> Result<Rows<T>, AllocError>
        ensures { IfOk result (λ copy. copy ≡ self.now) }
    {
        Ok(Rows {
            cells: moved(alloc, &self.cells, &self.used, self.room)?,
            used: self.used.copy(alloc)?,
            room: self.room,
        })
    }

    /// The row of this number, which is there.
    pub fn known(&self, number: u32) -> T
        requires { IsSome (row_at self.now number) }
        ensures { row_at self.now number ≡ Some result }
    {
        self.cells.get(number)
    }

    /// The row of this number, if it is there.
    pub fn find(&self, number: u32) -> Option<T>
        ensures { result ≡ row_at self.now number }
    {
        if self.used.contains(number) {
            Some(self.cells.get(number))
        } else {
            None
        }
    }

    /// Whether the row of this number is there.
    pub fn has(&self, number: u32) -> bool
        ensures { result ≡ has_row self.now number }
    {
        self.used.contains(number)
    }

    /// The greatest number that has a row, or 0 if there is none. It is found as `Numbers::last` finds it.
    pub fn last(&self) -> u32
        ensures { IsLast (has_row self.now) result }
    {
        self.used.last()
    }

    /// The least number above this one that has a row, or none. It is found as `Numbers::after` finds it.
    pub fn after(&self, number: u32) -> Option<u32>
        ensures { IsNext (has_row self.now) number result }
    {
        self.used.after(number)
    }

    /// Puts the row of this number, or replaces it. This is one step, and it walks over nothing.
    pub fn put(&mut self, number: u32, row: T)
        requires { number < length self.old }
        ensures rows { (q : ℕ) → row_at self.new q ≡ cond (nat_eq q number) (Some row) (row_at self.old q) }
        ensures len { length self.new ≡ length self.old }
    {
        self.cells.put(number, row);
        self.used.put(number);
    }

    /// Takes away the row of this number, if it is there. This is one step, and it walks over nothing.
    pub fn take(&mut self, number: u32)
        requires { number < length self.old }
        ensures rows { (q : ℕ) → row_at self.new q ≡ cond (nat_eq q number) None (row_at self.old q) }
        ensures len { length self.new ≡ length self.old }
    {
        self.used.take(number);
    }

    /// Replaces the row of this number, which has one. It writes only the row; `put` also notes that the number is in use.
    pub fn set(&mut self, number: u32, row: T)
        requires { IsSome (row_at self.old number) }
        ensures rows { (q : ℕ) → row_at self.new q ≡ cond (nat_eq q number) (Some row) (row_at self.old q) }
        ensures len { length self.new ≡ length self.old }
    {
        self.cells.put(number, row);
    }

    /// For how many numbers, from 0 on, there is room.
    pub fn len(&self) -> u32
        ensures { result ≡ length self.now }
    {
        self.room
    }

    /// Whether there is room for the number, which is at least 1.
    pub fn reaches(&self, number: u32) -> bool
        ensures { result ≡ nat_le 1 number && nat_le number (length self.now - 1) }
    {
        number != 0 && number < self.room
    }

    /// Makes cells that stand beside the rows reach to the number. The cell of each row is written, and stays as it is.
    pub fn reach_beside<U: Copy>(&self, cells: &mut Cells<U>, number: u32) -> Result<(), AllocError>
        requires limit { number ≤ 2000001 }
        requires fits { length self.now ≤ length cells.old }
        requires written { (k : ℕ) → has_row self.now k ≡ true → has_row cells.old k ≡ true }
        ensures same { (k : ℕ) → has_row self.now k ≡ true → row_at cells.new k ≡ row_at cells.old k }
        ensures fits { length self.now ≤ length cells.new }
        ensures ok { OnOk result (number < length cells.new) }
        ensures known { number < length cells.old → IsOk result }
    {
        widen(cells, &self.used, self.room, number)
    }

    /// Makes the rows reach to the number. If they do already, this is one test, and no `Err` comes.
    #[inline(always)]
    pub fn reach(&mut self, number: u32) -> Result<(), AllocError>
        requires { number ≤ 2000001 }
        ensures same { (q : ℕ) → row_at self.new q ≡ row_at self.old q }
        ensures grows { length self.old ≤ length self.new }
        ensures limit { (k : ℕ) → number < k → length self.old ≤ k → length self.new ≤ k }
        ensures ok { OnOk result (number < length self.new) }
        ensures known { number < length self.old → IsOk result }
    {
        if number < self.room {
            return Ok(());
        }
        self.used.reach(number)?;
        widen(&mut self.cells, &self.used, self.room, number)?;
        self.room = number + 1;
        Ok(())
    }
}

/// Makes the cells reach to the number. Those of the numbers in use stay as they are.
#[inline(always)]
fn widen<T: Copy>(
    cells: &mut Cells<T>,
    used: &Numbers,
    room: u32,
    number: u32,
) -> Result<(), AllocError>
    requires limit { number ≤ 2000001 }
    requires fits { room ≤ length cells.old }
    requires written { (k : ℕ) → uses used.now k ≡ true → is_some (row_at cells.old k) ≡ true }
    ensures same { (k : ℕ) → k < room → uses used.now k ≡ true → row_at cells.new k ≡ row_at cells.old k }
    ensures fits { room ≤ length cells.new }
    ensures ok { OnOk result (number < length cells.new) }
    ensures known { number < length cells.old → IsOk result }
{
    if (number as usize) < cells.len() {
        return Ok(());
    }
    move_on(cells, used, room, number)
}

/// Moves the cells to a block that reaches to a number. Those of the numbers in use stay as they are.
#[inline(never)]
fn move_on<T: Copy>(
    cells: &mut Cells<T>,
    used: &Numbers,
    room: u32,
    number: u32,
) -> Result<(), AllocError>
    requires limit { number ≤ 2000001 }
    requires fits { room ≤ length cells.old }
    requires short { length cells.old ≤ number }
    requires written { (k : ℕ) → uses used.now k ≡ true → is_some (row_at cells.old k) ≡ true }
    ensures same { (k : ℕ) → k < room → uses used.now k ≡ true → row_at cells.new k ≡ row_at cells.old k }
    ensures fits { room ≤ length cells.new }
    ensures ok { OnOk result (number < length cells.new) }
{
    let mut wider = Cells::with_count(cells.alloc(), count_for(number))?;
    copy_rows(cells, used, room, &mut wider);
    *cells = wider;
    Ok(())
}

/// New cells for the numbers for which there is room, with what the cells of the numbers in use hold.
fn moved<T: Copy>(
    alloc: Global,
    cells: &Cells<T>,
    used: &Numbers,
    room: u32,
) -> Result<Cells<T>, AllocError>
    requires limit { room ≤ 2000002 }
    requires written { (k : ℕ) → uses used.now k ≡ true → is_some (row_at cells.now k) ≡ true }
    ensures same { IfOk result (λ copy. (k : ℕ) → k < room → uses used.now k ≡ true → row_at copy k ≡ row_at cells.now k) }
    ensures fits { IfOk result (λ copy. room ≤ length copy) }
{
    if room == 0 {
        return Ok(Cells::new(alloc));
    }
    let mut copy = Cells::with_count(alloc, count_for(room - 1))?;
    copy_rows(cells, used, room, &mut copy);
    Ok(copy)
}

/// Copies the cells of the numbers in use to others.
fn copy_rows<T: Copy>(cells: &Cells<T>, used: &Numbers, room: u32, copy: &mut Cells<T>)
    requires fits { room ≤ length copy.old }
    requires written { (k : ℕ) → uses used.now k ≡ true → is_some (row_at cells.now k) ≡ true }
    ensures same { (k : ℕ) → k < room → uses used.now k ≡ true → row_at copy.new k ≡ row_at cells.now k }
    ensures len { length copy.new ≡ length copy.old }
{
    'rows: for n in 0..room {
        copy_row(cells, used, n, copy);
    }
}

/// Copies the cell of the number to another one, if the number is in use.
fn copy_row<T: Copy>(cells: &Cells<T>, used: &Numbers, number: u32, copy: &mut Cells<T>)
    requires room { number < length copy.old }
    requires written { uses used.now number ≡ true → is_some (row_at cells.now number) ≡ true }
    ensures same { uses used.now number ≡ true → row_at copy.new number ≡ row_at cells.now number }
    ensures others { (k : ℕ) → k ≢ number → row_at copy.new k ≡ row_at copy.old k }
    ensures len { length copy.new ≡ length copy.old }
{
    if used.contains(number) {
        copy.put(number, cells.get(number));
    }
}

/// How many cells there are once this number has one. They are seldom many more than needed. If many are needed, there are cells for all numbers:
/// cells that aren't written cost no memory, and those that are written need not move again.
fn count_for(number: u32) -> usize
    requires { number ≤ 2000001 }
    ensures { number < result }
{
    if number < 64 {
        64
    } else if number < 1024 {
        1024
    } else {
        2000002
    }
}
