//! When variables were noted last.
//!
//! A clock goes up, and each variable keeps the time at which it was noted last. So whether it was noted since is told by one
//! look, and not by a search.

use crate::atom::Variable;
use crate::by_variable::{number_of, set_number};
use gib_base::{ByNumber, Memory};
use std::alloc::{AllocError, Global};
use std::marker::Model;

/// When each variable was noted last.
#[derive(Drop)]
pub struct Clock {
    time: u64,
    noted: ByNumber<u64>,
}

impl Model for Clock {
    ghost use Rattle.gib_core.specs.Noted.{Seen, ArePast};

    ghost Value = { Seen };

    ghost view = { λ c. record { clock = c.time; times = c.noted } };

    ghost invariant = { λ c. ArePast c.time c.noted };
}

impl Clock {
    ghost use Rattle.std.specs.Prelude.{◌≡◌, [], IfOk, OnOk};
    ghost use Rattle.gib_core.specs.{ByVariable.{number_at}, Noted.{ArePast, Ticks, Notes}};

    /// Nothing was noted.
    pub fn new(alloc: Global) -> Clock
        ensures { result ≡ record { clock = 0; times = [] } }
    {
        Clock {
            time: 0,
            noted: ByNumber::new(alloc),
        }
    }

    /// The time now; nothing was noted later.
    pub fn time(&self) -> u64
        ensures now { result ≡ self.now.clock }
        ensures past { ArePast self.now.clock self.now.times }
    {
        let _noted = &self.noted;
        self.time
    }

    /// The clock goes up.
    ///
    /// # Errors
    ///
    /// Want of memory, where no further time is left too.
    pub fn tick(&mut self) -> Result<(), Memory>
        ensures { OnOk result (Ticks self.old self.new) }
    {
        let Some(time) = self.time.checked_add(1) else {
            return Err(AllocError);
        };
        self.time = time;
        Ok(())
    }

    /// A variable is noted now.
    ///
    /// # Errors
    ///
    /// Want of memory.
    pub fn note(&mut self, x: Variable) -> Result<(), Memory>
        ensures { OnOk result (Notes self.old self.new x) }
    {
        set_number(&mut self.noted, x, self.time)
    }

    /// The time at which a variable was noted last; 0 where it was not.
    pub fn last(&self, x: Variable) -> u64
        ensures { result ≡ number_at self.now.times x.0 }
    {
        number_of(&self.noted, x)
    }
}
