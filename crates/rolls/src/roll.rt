// A list of at most N elements in fixed memory.
ghost use Rattle.std.specs.Prelude.{◌≡◌, ℕ, ◌+◌, ◌<◌, ◌≤◌, List, [], ◌∷◌, ◌++◌, length, take, IfSome, sum_by, position, if◌then◌else◌, None, MatchOption, slice_index_or, slice_set};
ghost use Rattle.std.specs.List.{slice_get};
ghost use Rattle.rolls.specs.Codes.{good, code_of};

use crate::code::Code;
use crate::find::{Keyed, find};
use std::marker::Model;

// The first `count` of the places hold the elements, in order.
#[derive(Drop)]
pub struct Roll<X, const N: usize> {
    places: [X; N],
    count: usize,
}

// Whoever holds a roll sees its elements.
impl<X, const N: usize> Model for Roll<X, N> {
    ghost Value = { List X };

    ghost view = { λ r. take r.count r.places };

    ghost invariant = { λ r. r.count ≤ N };
}

impl<X: Copy, const N: usize> Roll<X, N> {
    // A roll with no element; `filler` stands in the unused places.
    pub fn empty(filler: X) -> Roll<X, N>
        ensures { result ≡ [] }
    {
        Roll {
            places: [filler; N],
            count: 0,
        }
    }

    // The elements in order.
    pub fn as_slice(&self) -> &[X]
        ensures value { result.now ≡ self.now }
        ensures bound { length result.now ≤ N }
    {
        &self.places[..self.count]
    }

    // How many elements there are.
    pub fn len(&self) -> usize
        ensures value { result ≡ length self.now }
        ensures bound { result ≤ N }
    {
        self.as_slice().len()
    }

    // The element at a place, if one stands there.
    pub fn get(&self, place: usize) -> Option<X>
        ensures { result ≡ slice_get self.now place }
    {
        self.as_slice().get(place).copied()
    }

    // Writes over the element at a place; where none stands, nothing changes.
    pub fn put(&mut self, place: usize, x: X)
        ensures { self.new ≡ slice_set self.old place x }
    {
        if place < self.count {
            self.places[place] = x;
        }
    }

    // Adds an element at the end and answers its place; None where the roll is full, and then nothing changes.
    pub fn push(&mut self, x: X) -> Option<usize>
        ensures { MatchOption result
            ((length self.old ≡ N) × (self.new ≡ self.old))
            (λ i. (i ≡ length self.old) × (i < N) × (self.new ≡ self.old ++ x ∷ [])) }
    {
        let place = self.len();
        if place == N {
            return None;
        }
        self.places[place] = x;
        self.count = place + 1;
        Some(place)
    }

    // Takes out the element at a place and moves the last one there; where none stands, nothing changes.
    // What holds of the roll afterwards is said of every sum over its elements, since the order is not kept.
    pub fn remove(&mut self, place: usize)
        ensures sums { place < length self.old → (f : X → ℕ) (d : X) → sum_by f self.new + f (slice_index_or self.old place d) ≡ sum_by f self.old }
        ensures past { length self.old ≤ place → self.new ≡ self.old }
        ensures shorter { length self.new ≤ length self.old }
    {
        if place < self.count {
            let end = self.count - 1;
            self.places[place] = self.places[end];
            self.count = end;
        }
    }
}

impl<X: Keyed + Copy, const N: usize> Roll<X, N> {
    // The first place whose element has the key.
    pub fn place_of(&self, key: &X::Key) -> Option<usize>
        ensures value { result ≡ position (λ x. X.Keyed.matches x key.now) self.now }
        ensures within { IfSome result (λ i. (i < length self.now) × (i < N)) }
    {
        find(self.as_slice(), key)
    }
}

impl<X: Keyed<Key = Code> + Copy, const N: usize> Roll<X, N> {
    // The first place whose element has the code that a text spells; a text that is no code names none.
    pub fn place_named(&self, text: &[u8]) -> Option<usize>
        ensures value { result ≡ (if good text.now then position (λ x. X.Keyed.matches x (code_of text.now)) self.now else None) }
        ensures within { IfSome result (λ i. (i < length self.now) × (i < N)) }
    {
        let code = Code::new(text)?;
        self.place_of(&code)
    }
}
