//! The bits of one net; begin with `Row`.

ghost use Rattle.std.specs.Prelude.{◌≡◌, ◌≤◌, ◌<◌, ◌⊎◌, ℕ, false, length, replicate, IfOk, slice_index_or, slice_set};

use std::alloc::{AllocError, Global};
use std::marker::Model;
use ste_base::{Items, Time};

/// The bits of one net, a bit for each time.
#[derive(Drop)]
pub struct Row {
    bits: Vec<bool>,
}

impl Model for Row {
    ghost use Rattle.std.specs.Prelude.{List, Bool};

    ghost Value = { List Bool };

    ghost view = { λ a. a.bits.items };
}

impl Row {
    /// A row of so many zeros.
    pub fn zeros(alloc: Global, times: Time) -> Result<Row, AllocError>
        ensures { IfOk result (λ row. row ≡ replicate times false) }
    {
        Ok(Row {
            bits: vec![in alloc; false; times as usize]?,
        })
    }

    /// The bit at a time, and 0 where there is none.
    pub fn bit(&self, t: Time) -> bool
        ensures { result ≡ slice_index_or self.now t false }
    {
        self.bits.get(t as usize).copied().unwrap_or(false)
    }

    /// Puts a bit at a time.
    pub fn set(&mut self, t: Time, bit: bool)
        requires { t < length self.old }
        ensures { self.new ≡ slice_set self.old t bit }
    {
        self.bits[t as usize] = bit;
    }

    /// Puts a bit at each time from one up to, but not at, another.
    pub fn fill(&mut self, from: Time, to: Time, bit: bool)
        requires { to ≤ length self.old }
        ensures long { length self.new ≡ length self.old }
        ensures inside { (t : ℕ) → from ≤ t → t < to → slice_index_or self.new t false ≡ bit }
        ensures outside { (t : ℕ) → (t < from) ⊎ (to ≤ t)
            → slice_index_or self.new t false ≡ slice_index_or self.old t false }
    {
        for t in from..to {
            self.set(t, bit);
        }
    }

    /// Puts other bits in place of all.
    pub fn assign(&mut self, bits: &[bool])
        requires { length bits.now ≡ length self.old }
        ensures { self.new ≡ bits.now }
    {
        self.bits.copy_from_slice(bits);
    }

    /// The bits as a list. It takes no memory.
    pub fn into_items(self) -> Items<bool>
        ensures { result ≡ self }
    {
        let Row { bits } = self;
        bits.into()
    }
}
