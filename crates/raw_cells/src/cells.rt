//! Cells by number, each empty or holding a value.
ghost use Rattle.std.specs.Prelude.{◌≡◌, ◌<◌, [], Some, None, IsSome, length, replicate, slice_set, slice_index_or, IfOk};

use crate::block::{Base, Deed, Places, allocate, deallocate};
use std::alloc::{AllocError, Global};
use std::marker::Model;
use std_alloc::room::may_hold;

/// A number of cells, counted from 0. A contract sees what each cell holds, which is `None` if it hasn't been written.
///
/// A new cell is only reserved: its memory isn't touched before it is written. Only `with_count` takes memory.
pub struct Cells<T: Copy> {
    alloc: Global,
    base: Base<T>,
    count: usize,
    places: Places<T>,
    deed: Option<Deed<T, Global>>,
}

impl<T: Copy> Model for Cells<T> {
    ghost use Rattle.std.specs.Prelude.{List, Option};

    ghost Value = { List (Option T) };

    ghost use Rattle.raw_cells.specs.Blocks.{IsBlock};

    ghost view = { λ c. c.places.slots };

    ghost invariant = { λ c. IsBlock c.alloc c.base c.count c.places c.deed };
}

impl<T: Copy> Cells<T> {
    /// No cell. It takes no memory.
    pub fn new(alloc: Global) -> Self
        ensures { result ≡ [] }
    {
        Self {
            alloc,
            base: Base::null(),
            count: 0,
            places: Places::none(),
            deed: None,
        }
    }

    /// That many cells, at least one, which hold nothing. The cost doesn't grow with their number.
    pub fn with_count(alloc: Global, count: usize) -> Result<Self, AllocError>
        requires { 0 < count }
        ensures { IfOk result (λ cells. cells ≡ replicate count None) }
    {
        if !may_hold::<T>(count) {
            return Err(AllocError);
        }
        let (base, places, deed) = allocate(&alloc, count)?;
        Ok(Self {
            alloc,
            base,
            count,
            places,
            deed: Some(deed),
        })
    }

    /// The allocator of the cells' memory.
    pub fn alloc(&self) -> Global {
        self.alloc
    }

    /// How many cells there are.
    pub fn len(&self) -> usize
        ensures { result ≡ length self.now }
    {
        self.count
    }

    /// What the cell of this number holds. The cell has been written.
    pub fn get(&self, number: u32) -> T
        requires { IsSome (slice_index_or self.now number None) }
        ensures { slice_index_or self.now number None ≡ Some result }
    {
        *self.places.get(self.base, number as usize)
    }

    /// Writes the cell of this number.
    pub fn put(&mut self, number: u32, value: T)
        requires { number < length self.old }
        ensures { self.new ≡ slice_set self.old number (Some value) }
    {
        self.places.write(self.base, number as usize, value);
    }
}

impl<T: Copy> Drop for Cells<T> {
    /// Frees the block. The values need no drop.
    fn drop(self) {
        let Cells {
            alloc,
            base,
            count,
            places,
            deed,
        } = self;
        match deed {
            Some(deed) => deallocate(&alloc, base, count, places, deed),
            None => places.close(),
        }
    }
}
