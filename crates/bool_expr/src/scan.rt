//! Whether tokens make an expression, and how deep it is nested; begin with `nesting`.

ghost use Rattle.std.specs.Prelude.{◌≡◌, ◌≤◌, Option, None, Some, IfOk, if◌then◌else◌};
ghost use Rattle.bool_expr.specs.Tokens.{tokens_of, opening, closing};
ghost use Rattle.bool_expr.specs.private.Held.{token_of};
ghost use Rattle.bool_expr.specs.Scan.{scan_state, step, scan_from, scan_start, deeper, behind_factor, depth_at_end};

use crate::token::{Token, next_token};
use std::alloc::{AllocError, Global};
use std::collections::VecDeque;

/// How far the tokens of an expression are read. Depths are counted up to 101.
#[derive(Drop)]
pub struct Scan {
    /// Whether a factor has to come next.
    pub wants_factor: bool,
    /// The number of `!` and brackets round what comes next.
    pub depth: u8,
    /// The number of brackets round it, with the `!` before them.
    pub base: u8,
    /// The greatest depth of a constant or variable so far.
    pub deepest: u8,
    /// The base outside each open bracket, the innermost first.
    pub outer: VecDeque<u8>,
}

/// One more than a depth, counted up to 101.
fn deeper(depth: u8) -> u8
    ensures { result ≡ deeper 101 depth }
{
    if depth < 101 { depth + 1 } else { 101 }
}

impl Scan {
    /// Before the first token.
    fn new(alloc: Global) -> Scan
        ensures { scan_state result ≡ scan_start }
    {
        Scan {
            wants_factor: true,
            depth: 0,
            base: 0,
            deepest: 0,
            outer: VecDeque::new(alloc),
        }
    }

    /// Behind a constant or a variable; false where none may stand here.
    fn factor(&mut self) -> bool
        ensures { behind_factor (scan_state self.old)
            ≡ (if result then Some (scan_state self.new) else None) }
    {
        if !self.wants_factor {
            return false;
        }
        self.deepest = self.deepest.max(self.depth);
        self.depth = self.base;
        self.wants_factor = false;
        true
    }

    /// Behind an opening bracket; false where none may stand here.
    fn open(&mut self) -> Result<bool, AllocError>
        ensures { IfOk result (λ fits. step 101 (scan_state self.old) opening
            ≡ (if fits then Some (scan_state self.new) else None)) }
    {
        if !self.wants_factor {
            return Ok(false);
        }
        self.outer.push_front(self.base)?;
        self.depth = deeper(self.depth);
        self.base = self.depth;
        Ok(true)
    }

    /// Behind a closing bracket; false where none may stand here.
    fn close(&mut self) -> bool
        ensures { step 101 (scan_state self.old) closing
            ≡ (if result then Some (scan_state self.new) else None) }
    {
        if self.wants_factor {
            return false;
        }
        let Some(base) = self.outer.pop_front() else {
            return false;
        };
        self.base = base;
        self.depth = base;
        true
    }

    /// Behind one more token; false where it may not stand here.
    fn step(&mut self, token: Token<'_>) -> Result<bool, AllocError>
        ensures { IfOk result (λ fits. step 101 (scan_state self.old) (token_of token.entry)
            ≡ (if fits then Some (scan_state self.new) else None)) }
    {
        match token {
            Token::Sign(_) => {
                let fits = !self.wants_factor;
                self.wants_factor = true;
                Ok(fits)
            }
            Token::Not => {
                self.depth = deeper(self.depth);
                Ok(self.wants_factor)
            }
            Token::Open => self.open(),
            Token::Close => Ok(self.close()),
            Token::Const(_) | Token::Name(_) => Ok(self.factor()),
            Token::Wrong => Ok(false),
        }
    }

    /// At the end of the tokens: the greatest depth; None where they may not end here.
    fn end(&self) -> Option<u8>
        ensures { result ≡ depth_at_end self.now.wants_factor self.now.outer.items self.now.deepest }
    {
        if self.wants_factor || !self.outer.is_empty() {
            None
        } else {
            Some(self.deepest)
        }
    }
}

/// The nesting of an expression, counted up to 101; None where the text is none.
pub fn nesting(alloc: Global, text: &[u8]) -> Result<Option<u8>, AllocError>
    ensures { IfOk result (λ found. found ≡ scan_from 101 scan_start (tokens_of text.now)) }
{
    let mut scan = Scan::new(alloc);
    let mut rest = text;
    while let Some((token, more)) = next_token(rest) {
        if !scan.step(token)? {
            return Ok(None);
        }
        rest = more;
    }
    Ok(scan.end())
}
