// Identifiers in order, as a list of at most 17: those that have a label, or those to choose from.
ghost use Rattle.std.specs.Prelude.{◌≡◌, [], ◌∷◌, ◌++◌, ◌<◌, ◌≤◌, ltb, length, take};
ghost use Rattle.classes.specs.Classes.{position, noted};
ghost use Rattle.classes.specs.Contents.{fresh, identifier};
ghost use Rattle.lists.specs.Arrays.{padded};

use crate::position_of;
use std::marker::Model;

// Identifiers in order. A contract sees their list, which determines the fields: `count` is its length, and zeros stand after it.
#[derive(Clone, Copy)]
pub struct Seen {
    count: usize,
    ids: [u32; 17],
}

impl Model for Seen {
    ghost use Rattle.std.specs.Prelude.{List, ℕ, take};

    ghost Value = { List ℕ };

    ghost use Rattle.labelling.specs.Listed.{Tidy, seen_of};

    ghost view = { λ s. take s.count s.ids };

    ghost invariant = { Tidy };

    ghost inverse = { seen_of };

    ghost inverse_ok = { λ s h. h.given_back };
}

impl Seen {
    // The first `count` of these; zeros stand after them.
    pub fn new(ids: [u32; 17], count: usize) -> Self
        requires { (count ≤ 17) × (ids ≡ padded 17 (take count ids)) }
        ensures { result ≡ take count ids }
    {
        Seen { count, ids }
    }

    pub fn len(&self) -> usize
        ensures { (result ≡ length self.now) × (result ≤ 17) }
    {
        self.count
    }

    pub fn as_slice(&self) -> &[u32]
        ensures { result.now ≡ self.now }
    {
        &self.ids[..self.count]
    }

    // The place of x among the identifiers, or their number.
    pub fn place(&self, x: u32) -> usize
        ensures { (result ≡ position self.now x) × (result ≤ length self.now) }
    {
        position_of(&self.ids, self.count, x)
    }

    // Has x a place?
    pub fn contains(&self, x: u32) -> bool
        ensures { result ≡ ltb (position self.now x) (length self.now) }
    {
        self.place(x) < self.count
    }

    // One identifier more.
    pub fn push(&mut self, x: u32)
        requires { length self.old < 17 }
        ensures { self.new ≡ self.old ++ (x ∷ []) }
    {
        self.ids[self.count] = x;
        self.count += 1;
    }

    // x has a label from now on.
    pub fn note(&mut self, x: u32)
        requires { length self.old < 17 }
        ensures { self.new ≡ noted self.old x }
    {
        if !self.contains(x) {
            self.push(x);
        }
    }

    // The smallest identifier that is none of these.
    pub fn smallest_other(&self) -> u32
        ensures { result ≡ fresh self.now }
    {
        let n = self.count as u32;
        for x in 0..n {
            if !self.contains(x) {
                return x;
            }
        }
        n
    }

    // The identifier of a label: the one that has it, or else the smallest that has none.
    pub fn identifier_of(&self, label: u8) -> u32
        requires { 1 ≤ label }
        ensures { result ≡ identifier self.now label }
    {
        let x = usize::from(label);
        if self.count < x {
            self.smallest_other()
        } else {
            self.ids[x - 1]
        }
    }
}
