ghost use Rattle.std.specs.Prelude.{[], ◌≡◌, ◌≤◌, ℕ, List, true, OnOk, IfOk, IfErr};
ghost use Rattle.esql_types.specs.Counts.{Rose, is_listed, next_count};
ghost use Rattle.esql_types.specs.Patterns.{IsReading, IsReadable, IsUnreadable};

use crate::{Name, Noted, Seq};
use regex::{Error as RegexError, Regex};
use std::alloc::{AllocError, Global};
use thiserror::Error;

/// Why a pattern was not made.
#[derive(Clone, Copy, Debug, Drop, Error)]
pub enum PatternError {
    #[error("the pattern is not readable")]
    NotRead,
    #[error("the pattern is too large to build")]
    TooLarge,
    #[error(transparent)]
    Memory(#[from(alloc)] AllocError),
}

/// What builds regular expressions, in the syntax of the crate `regex`.
pub trait Maker {
    /// How many calls answered `TooLarge`; it never falls.
    ghost refused: { Self → ℕ };

    /// The pattern of the last call that answered `TooLarge`, empty before the first.
    ghost last: { Self → List ℕ };

    fn build(&mut self, alloc: Global, pattern: &str) -> Result<Regex, PatternError>
        ensures reading { IfOk result (λ regex. IsReading pattern.now regex) }
        ensures readable { OnOk result (IsReadable pattern.now) }
        ensures not_read { result ≡ Err PatternError.NotRead → IsUnreadable pattern.now }
        ensures rose { result ≡ Err PatternError.TooLarge → Rose (refused self.old) (refused self.new) }
        ensures noted { result ≡ Err PatternError.TooLarge → last self.new ≡ pattern.now }
        ensures count { refused self.old ≤ refused self.new }
        ensures kept { (result ≡ Err PatternError.TooLarge → ⊥) → last self.new ≡ last self.old }
        ensures uncounted { (result ≡ Err PatternError.TooLarge → ⊥) → refused self.new ≡ refused self.old };
}

/// The maker that builds by `regex`.
#[derive(Drop)]
pub struct CrateMaker {
    calls: u64,
    refused: u64,
    failing: Seq<u64>,
    last: Noted,
}

impl CrateMaker {
    /// A maker whose calls, numbered from 0, answer `TooLarge` where their number is in `failing`.
    pub fn new(failing: Seq<u64>) -> CrateMaker
        ensures first { result.calls ≡ 0 }
        ensures listed { result.failing ≡ failing }
        ensures none_refused { result.refused ≡ 0 }
        ensures none_noted { result.last.text ≡ [] }
    {
        CrateMaker {
            calls: 0,
            refused: 0,
            failing,
            last: Noted::new(),
        }
    }

    // Whether the next call is one of those that answer `TooLarge`.
    fn fails(&self) -> bool
        ensures { result ≡ is_listed self.now.failing self.now.calls }
    {
        self.failing.as_slice().contains(&self.calls)
    }

    fn refuse(&mut self, pattern: &str) -> PatternError
        ensures same { (self.new.calls ≡ self.old.calls) × (self.new.failing ≡ self.old.failing) }
        ensures too_large { result ≡ PatternError.TooLarge }
        ensures rose { Rose self.old.refused self.new.refused }
        ensures count { self.old.refused ≤ self.new.refused }
        ensures noted { self.new.last.text ≡ pattern.now }
    {
        self.refused = self.refused.saturating_add(1);
        self.last = self.last.then(&Name { text: pattern });
        PatternError::TooLarge
    }
}

impl Maker for CrateMaker {
    ghost refused = { λ maker. maker.refused };

    ghost last = { λ maker. maker.last.text };

    fn build(&mut self, alloc: Global, pattern: &str) -> Result<Regex, PatternError>
        ensures reading { IfOk result (λ regex. IsReading pattern.now regex) }
        ensures readable { OnOk result (IsReadable pattern.now) }
        ensures not_read { result ≡ Err PatternError.NotRead → IsUnreadable pattern.now }
        ensures rose { result ≡ Err PatternError.TooLarge → Rose self.old.refused self.new.refused }
        ensures noted { result ≡ Err PatternError.TooLarge → self.new.last.text ≡ pattern.now }
        ensures count { self.old.refused ≤ self.new.refused }
        ensures kept { (result ≡ Err PatternError.TooLarge → ⊥) → self.new.last.text ≡ self.old.last.text }
        ensures uncounted { (result ≡ Err PatternError.TooLarge → ⊥) → self.new.refused ≡ self.old.refused }
        ensures failing { is_listed self.old.failing self.old.calls ≡ true → result ≡ Err PatternError.TooLarge }
        ensures numbered { self.new.calls ≡ next_count self.old.calls }
        ensures listed { self.new.failing ≡ self.old.failing }
    {
        let fails = self.fails();
        self.calls = self.calls.saturating_add(1);
        if fails {
            return Err(self.refuse(pattern));
        }
        match Regex::new(alloc, pattern) {
            Ok(regex) => Ok(regex),
            Err(RegexError::Syntax(_)) => Err(PatternError::NotRead),
            Err(RegexError::OutOfMemory) => Err(PatternError::Memory(AllocError)),
            Err(RegexError::CompiledTooBig | RegexError::Internal) => Err(self.refuse(pattern)),
        }
    }
}
