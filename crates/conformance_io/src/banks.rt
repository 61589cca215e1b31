// What a call changed in a bank, and in both.
ghost use Rattle.std.specs.Prelude.{◌≡◌, ◌≤◌, [], ◌∷◌, ◌++◌, Some, length, drop, MatchOption, OnOk, IfOk};
ghost use Rattle.std.specs.Fmt.{WritesOnOk, decimal};
ghost use Rattle.conformance_io.specs.Changes.{changes_from};
ghost use Rattle.conformance_io.specs.Text.{changes_following, changes_text, following, numbers_text};

use std::alloc::{AllocError, Global};
use std::fmt;
use std::fmt::Display;

/// A word that a call changed: the number of its bank, its index and what it is now.
#[derive(Clone, Copy, Debug, PartialEq, Eq)]
pub struct Change {
    pub bank: u32,
    pub index: usize,
    pub word: u32,
}

impl fmt::Display for Change {
    ghost output = { λ change. Some (numbers_text (change.bank ∷ change.index ∷ change.word ∷ [])) };

    fn fmt<W: fmt::Write>(&self, f: &mut fmt::Formatter<W>) -> fmt::Result {
        write!(f, "{} {} {}", self.bank, self.index, self.word)
    }
}

/// The changes of one bank. Each prints after a blank.
#[derive(Clone, Copy)]
pub struct BankChanges<'a> {
    pub bank: u32,
    pub before: &'a [u32],
    pub after: &'a [u32],
}

impl BankChanges<'_> {
    // The change at an index, if the word there changed.
    fn change(&self, index: usize, word: u32) -> Option<Change>
        ensures { MatchOption result
            (changes_from self.now.bank index (word ∷ []) (drop index self.now.before.now) ≡ [])
            (λ change. changes_from self.now.bank index (word ∷ []) (drop index self.now.before.now) ≡ change ∷ []) }
    {
        match self.before.get(index) {
            Some(before) if *before == word => None,
            _ => Some(Change {
                bank: self.bank,
                index,
                word,
            }),
        }
    }

    pub fn count(&self) -> usize
        ensures all { result ≡ length (changes_from self.now.bank 0 self.now.after.now self.now.before.now) }
        ensures few { result ≤ length self.now.after.now }
    {
        let (after, before) = (self.after, self.before);
        let mut count = after.len().saturating_sub(before.len());
        let both = after.len().min(before.len());
        for index in 0..both {
            if before[index] != after[index] {
                count += 1;
            }
        }
        count
    }

    // Puts the changes after those so far.
    fn push_to(&self, all: &mut Vec<Change>) -> Result<(), AllocError>
        ensures { OnOk result (all.new.items ≡ all.old.items ++ changes_from self.now.bank 0 self.now.after.now self.now.before.now) }
    {
        for (index, word) in self.after.iter().enumerate() {
            if let Some(change) = self.change(index, *word) {
                all.push(change)?;
            }
        }
        Ok(())
    }
}

// Writes a number after a blank. By itself the blank is a piece of known length, which is copied faster.
#[inline(always)]
fn put_next<W: fmt::Write>(f: &mut fmt::Formatter<W>, number: usize) -> fmt::Result
    ensures { WritesOnOk W.write_str_gives f.old result (32 ∷ decimal number) f.new }
{
    f.write_str(" ")?;
    number.fmt(f)
}

#[inline(always)]
fn put_change<W: fmt::Write>(f: &mut fmt::Formatter<W>, change: Change) -> fmt::Result
    ensures { WritesOnOk W.write_str_gives f.old result (following (change.bank ∷ change.index ∷ change.word ∷ [])) f.new }
{
    put_next(f, change.bank as usize)?;
    put_next(f, change.index)?;
    put_next(f, change.word as usize)
}

impl fmt::Display for BankChanges<'_> {
    ghost output = { λ changes. Some (changes_following (changes_from changes.bank 0 changes.after.now changes.before.now)) };

    fn fmt<W: fmt::Write>(&self, f: &mut fmt::Formatter<W>) -> fmt::Result {
        for (index, word) in self.after.iter().enumerate() {
            if let Some(change) = self.change(index, *word) {
                put_change(f, change)?;
            }
        }
        Ok(())
    }
}

/// The changed words of both banks, which print after their count.
#[derive(Drop)]
pub struct Changes(pub Vec<Change>);

impl fmt::Display for Changes {
    ghost output = { λ changes. Some (changes_text changes.0.items) };

    fn fmt<W: fmt::Write>(&self, f: &mut fmt::Formatter<W>) -> fmt::Result {
        write!(f, "{}", self.0.len())?;
        for change in &self.0 {
            write!(f, " {change}")?;
        }
        Ok(())
    }
}

/// Both banks, held.
#[derive(Clone, PartialEq, Eq, Drop)]
pub struct Banks {
    pub one: Vec<u32>,
    pub two: Vec<u32>,
}

impl Banks {
    /// What changed since the banks were as `before`.
    pub fn changes(&self, alloc: Global, before: &Banks) -> Result<Changes, AllocError>
        ensures { IfOk result (λ changes. changes.0.items
            ≡ changes_from 1 0 self.now.one.items before.now.one.items ++ changes_from 2 0 self.now.two.items before.now.two.items) }
    {
        let mut all = Vec::new(alloc);
        let one = BankChanges {
            bank: 1,
            before: &before.one,
            after: &self.one,
        };
        one.push_to(&mut all)?;
        let two = BankChanges {
            bank: 2,
            before: &before.two,
            after: &self.two,
        };
        two.push_to(&mut all)?;
        Ok(Changes(all))
    }
}
