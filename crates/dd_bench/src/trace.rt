//! Lists of diagram operations; begin with `Trace`.

use std::alloc::{AllocError, Global};

/// One operation. Operands are places: 0 and 1 are the constants, and k + 2 is the result of the
/// operation k.
#[derive(Clone, Copy, Drop)]
pub enum Act {
    Var(u32),
    Not(u32),
    And(u32, u32),
    Or(u32, u32),
    Xor(u32, u32),
    Ite(u32, u32, u32),
}

/// The place of the constant 0.
pub const ZERO: u32 = 0;

/// The place of the constant 1.
pub const ONE: u32 = 1;

/// The place of a variable: a trace begins with all variables.
pub fn var(v: u32) -> u32 {
    v.wrapping_add(2)
}

/// Operations over so many variables.
#[derive(Drop)]
pub struct Trace {
    pub vars: u32,
    pub acts: Vec<Act>,
    next: u32,
}

impl Trace {
    /// The variables alone.
    pub fn new(alloc: Global, vars: u32) -> Result<Trace, AllocError> {
        let mut trace = Trace {
            vars,
            acts: Vec::new(alloc),
            next: var(0),
        };
        for v in 0..vars {
            trace.put(Act::Var(v))?;
        }
        Ok(trace)
    }

    /// Puts an operation behind the others, and gives the place of its result.
    pub fn put(&mut self, act: Act) -> Result<u32, AllocError> {
        let place = self.next;
        self.acts.push(act)?;
        self.next = place.wrapping_add(1);
        Ok(place)
    }

    pub fn not(&mut self, a: u32) -> Result<u32, AllocError> {
        self.put(Act::Not(a))
    }

    pub fn and(&mut self, a: u32, b: u32) -> Result<u32, AllocError> {
        self.put(Act::And(a, b))
    }

    pub fn or(&mut self, a: u32, b: u32) -> Result<u32, AllocError> {
        self.put(Act::Or(a, b))
    }

    pub fn xor(&mut self, a: u32, b: u32) -> Result<u32, AllocError> {
        self.put(Act::Xor(a, b))
    }

    pub fn ite(&mut self, c: u32, a: u32, b: u32) -> Result<u32, AllocError> {
        self.put(Act::Ite(c, a, b))
    }
}
