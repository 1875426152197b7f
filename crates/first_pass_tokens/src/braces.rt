//! Brace contexts: the braces around a dollar sign.

ghost use Rattle.first_pass_tokens.specs.Braces.{no_braces, dollar_context, after_dollar, after_open, after_close};
ghost use Rattle.std.specs.Prelude.{◌≡◌};

use std::marker::Model;

/// The number of brace contexts that have numbers of their own; deeper braces are only counted.
pub const MATH_BRACE_CONTEXT_MAX_NESTING: usize = 25;

/// The brace contexts of a block. Dollar signs between the same braces have the same context, and possible math
/// begins and ends with dollar signs of one context. They take no memory.
#[derive(Drop)]
pub struct BraceContexts {
    stack: [u8; 26],
    len: usize,
    next: usize,
}

impl Model for BraceContexts {
    ghost use Rattle.first_pass_tokens.specs.Braces.{MathBraces};
    ghost use Rattle.std.specs.Prelude.{◌≤◌, take};

    ghost Value = { MathBraces };

    ghost view = { λ b. record { stack = take b.len b.stack; next = b.next } };

    ghost invariant = { λ b. b.len ≤ 26 };
}

impl BraceContexts {
    /// Returns the brace contexts at the start of a block: none is open.
    pub fn new() -> BraceContexts
        ensures { result ≡ no_braces }
    {
        BraceContexts {
            stack: [0; 26],
            len: 0,
            next: 0,
        }
    }

    /// Returns the number of the context of a dollar sign.
    #[tactic(auto, unfolding(crate::specs::Braces::dollar_context))]
    pub fn dollar(&self) -> u8
        ensures { result ≡ dollar_context self.now }
    {
        if self.len > MATH_BRACE_CONTEXT_MAX_NESTING {
            (self.next % 256) as u8
        } else if self.len == 0 {
            255
        } else {
            self.stack[self.len - 1]
        }
    }

    /// Moves past a dollar sign.
    #[tactic(auto, unfolding(crate::specs::Braces::after_dollar))]
    pub fn pass_dollar(&mut self)
        ensures { self.new ≡ after_dollar self.old }
    {
        if self.len == 0 {
            self.stack[0] = 255;
            self.len = 1;
        }
    }

    /// Moves past `{`.
    #[tactic(auto, unfolding(crate::specs::Braces::after_open))]
    pub fn open(&mut self)
        ensures { self.new ≡ after_open self.old }
    {
        if self.len > MATH_BRACE_CONTEXT_MAX_NESTING {
            self.next = self.next.saturating_add(1);
        } else if self.len > 0 {
            self.stack[self.len] = (self.next % 256) as u8;
            self.next = if self.len == MATH_BRACE_CONTEXT_MAX_NESTING {
                MATH_BRACE_CONTEXT_MAX_NESTING
            } else {
                self.next.saturating_add(1)
            };
            self.len += 1;
        }
    }

    /// Moves past `}`.
    #[tactic(auto, unfolding(crate::specs::Braces::after_close))]
    pub fn close(&mut self)
        ensures { self.new ≡ after_close self.old }
    {
        if self.len == 1 {
            self.stack[0] = self.stack[0].wrapping_sub(1);
        } else if self.len > MATH_BRACE_CONTEXT_MAX_NESTING
            && self.next > MATH_BRACE_CONTEXT_MAX_NESTING
        {
            self.next -= 1;
        } else {
            self.len = self.len.saturating_sub(1);
        }
    }
}
