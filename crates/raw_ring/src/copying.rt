//! A pool's copy, made by the pool's own calls: first each code is in a ring of one, and then the rings are made.
ghost use Rattle.std.specs.Prelude.{◌≡◌, ◌≤◌, None, true, IfOk, OnOk};
ghost use Rattle.std.specs.FinMap as map;
ghost use Rattle.raw_ring.specs.Rings.{IsLive};
ghost use Rattle.raw_ring.specs.Copying.{IsAlike, IsCopied, IsLed};

use crate::rings::Rings;
use std::alloc::{AllocError, Global};

impl Rings {
    /// A pool that has the same codes, rings, tails and labels, in nodes of its own. Its cost is linear in `code_bound`.
    ///
    /// An `Err` comes only if memory is refused. What was made of the copy is then freed.
    pub fn copy(&self, alloc: Global) -> Result<Rings, AllocError>
        ensures { IfOk result (λ copy. copy ≡ self.now) }
    {
        let mut copy = self.copy_codes(alloc)?;
        copy.follow(self);
        Ok(copy)
    }

    /// The same codes, tails and labels, each live code in a ring of one.
    fn copy_codes(&self, alloc: Global) -> Result<Rings, AllocError>
        ensures { IfOk result (λ copy. IsAlike self.now copy) }
    {
        let mut copy = Rings::new(alloc);
        for code in 0..self.code_bound() {
            if self.has_room(code) {
                copy.copy_code(self, code)?;
            }
        }
        Ok(copy)
    }

    /// Makes a code known as it is in the other pool; if it is live, it is in a ring of one.
    fn copy_code(&mut self, from: &Rings, code: u32) -> Result<(), AllocError>
        requires small { code ≤ 2000001 }
        requires known { map.contains_key from.now code ≡ true }
        requires new { map.get self.old code ≡ None }
        ensures { OnOk result (IsCopied from.now self.old self.new code) }
    {
        self.room(code)?;
        if from.is_live(code) {
            self.wake_as(code, from.tail(code), from.label(code));
        }
        Ok(())
    }

    /// Gives each code the successor that it has in the other pool.
    fn follow(&mut self, from: &Rings)
        requires { IsAlike from.now self.old }
        ensures { self.new ≡ from.now }
    {
        for code in 0..from.code_bound() {
            if from.is_live(code) {
                self.lead(code, from.next(code));
            }
        }
    }

    /// Makes a code lead to another, by a splice with the code that led there.
    fn lead(&mut self, code: u32, to: u32)
        requires code { IsLive self.old code }
        requires to { IsLive self.old to }
        ensures { IsLed self.old self.new code to }
    {
        let before = self.prev(to);
        self.splice(code, before);
    }
}
