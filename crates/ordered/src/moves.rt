// The elements in lent slots, place by place.
ghost use Rattle.std.specs.Prelude.{◌≡◌, ◌+◌, ◌-◌, ◌<◌, ◌≤◌, [], ◌∷◌, ◌++◌, length, nat_lt, is_ok, IsTrue, OnOk, OnErr, MatchResult, slice_get, slice_set};
ghost use Rattle.std.specs.List.{insert, remove};
ghost use Rattle.maps.specs.Maps.{ascending};
ghost use Rattle.maps.specs.Places.{StandsAt, BelongsAt};
ghost use Rattle.ordered.specs.Bounds.{IsLowerBound};
ghost use Rattle.ordered.specs.Tables.{items, room, RestKept};

use crate::halving::lower_bound;
use crate::keys::{KeyOrder, Keyed};
use crate::shift::{insert_at, remove_at};
use crate::slots::Slots;
use crate::table::Full;

impl<E: Copy> Slots<'_, E> {
    /// The element at `place`, which counts from 0, if one stands there.
    pub fn get(&mut self, place: usize) -> Option<E>
        ensures value { result ≡ slice_get (items self.old) place }
        ensures same { self.new ≡ self.old }
    {
        if place < self.len {
            Some(self.slots[place])
        } else {
            None
        }
    }

    /// Puts `entry` in the place of the element at `place`, if one stands there.
    pub fn set(&mut self, place: usize, entry: E)
        ensures items { items self.new ≡ slice_set (items self.old) place entry }
        ensures len { self.new.len ≡ self.old.len }
        ensures rest { RestKept self.old self.new }
    {
        if place < self.len {
            self.slots[place] = entry;
        }
    }

    /// Puts `entry` after the other elements, for which there has to be room.
    pub fn push(&mut self, entry: E)
        requires { length (items self.old) < room self.old }
        ensures items { items self.new ≡ items self.old ++ entry ∷ [] }
        ensures len { self.new.len ≡ self.old.len + 1 }
        ensures rest { RestKept self.old self.new }
    {
        let n = self.len;
        self.slots[n] = entry;
        self.len = n + 1;
    }

    /// Puts `entry` after the other elements. It is refused where there is no room.
    pub fn try_push(&mut self, entry: E) -> Result<(), Full>
        ensures done { is_ok result ≡ nat_lt (length (items self.old)) (room self.old) }
        ensures items { OnOk result (items self.new ≡ items self.old ++ entry ∷ []) }
        ensures unchanged { OnErr result (self.new ≡ self.old) }
        ensures rest { RestKept self.old self.new }
        ensures longer { self.old.len ≤ self.new.len }
    {
        if self.len >= self.slots.len() {
            return Err(Full);
        }
        self.push(entry);
        Ok(())
    }

    /// Takes the last element off, if there is one.
    pub fn pop(&mut self) -> Option<E>
        ensures value { result ≡ slice_get (items self.old) (self.old.len - 1) }
        ensures len { self.new.len ≡ self.old.len - 1 }
        ensures slots { self.new.slots ≡ self.old.slots }
    {
        if self.len == 0 {
            return None;
        }
        self.len -= 1;
        Some(self.slots[self.len])
    }

    // Puts `entry` at `place`, after moving what stands from there on to the right, where there is room.
    pub(crate) fn insert(&mut self, place: usize, entry: E) -> Result<(), Full>
        requires { place ≤ self.old.len }
        ensures done { is_ok result ≡ nat_lt (length (items self.old)) (room self.old) }
        ensures items { OnOk result (items self.new ≡ insert (items self.old) place entry) }
        ensures unchanged { OnErr result (self.new ≡ self.old) }
        ensures rest { RestKept self.old self.new }
    {
        let n = self.len;
        if n == self.slots.len() {
            return Err(Full);
        }
        insert_at(self.slots, n, place, entry);
        self.len = n + 1;
        Ok(())
    }

    // Takes the element at `place` away, and moves what follows to the left.
    pub(crate) fn remove(&mut self, place: usize)
        requires { place < self.old.len }
        ensures len { self.new.len ≡ self.old.len - 1 }
        ensures items { items self.new ≡ remove (items self.old) place }
        ensures rest { RestKept self.old self.new }
    {
        let n = self.len;
        remove_at(self.slots, n, place);
        self.len = n - 1;
    }
}

impl<E: Keyed> Slots<'_, E> {
    // The first place whose key is not before `key`, or the end, where the keys rise.
    pub(crate) fn seek(&mut self, key: E::Key) -> usize
        ensures same { self.new ≡ self.old }
        ensures within { result ≤ self.old.len }
        ensures found { IsTrue (ascending E.Key.before E.keyed (items self.old))
            → IsLowerBound E.Key.before E.keyed (items self.old) self.old.len key result }
    {
        let n = self.len;
        lower_bound(self.slots, n, key)
    }

    // The place of `key`, or where it would go, where the keys rise.
    pub(crate) fn search(&mut self, key: E::Key) -> Result<usize, usize>
        ensures same { self.new ≡ self.old }
        ensures within { MatchResult result (λ i. i < self.old.len) (λ i. i ≤ self.old.len) }
        ensures place { IsTrue (ascending E.Key.before E.keyed (items self.old))
            → MatchResult result (StandsAt E.Key.before E.keyed (items self.old) key)
            (BelongsAt E.Key.before E.keyed (items self.old) key) }
    {
        let i = self.seek(key);
        match self.get(i) {
            Some(there) if !key.is_before(&there.key()) => Ok(i),
            _ => Err(i),
        }
    }
}
