// Elements put into slots and taken out of them, one place at a time.
ghost use Rattle.std.specs.Prelude.{◌≡◌, ℕ, ◌+◌, ◌-◌, ◌<◌, ◌≤◌, length, take, drop};
ghost use Rattle.std.specs.List.{insert, remove};

// Puts `entry` at `place`, after moving what stands from there on to the right.
pub(crate) fn insert_at<E: Copy>(slots: &mut [E], len: usize, place: usize, entry: E)
    requires room { len < length slots.old }
    requires within { place ≤ len }
    ensures items { take (len + 1) slots.new ≡ insert (take len slots.old) place entry }
    ensures rest { drop (len + 1) slots.new ≡ drop (len + 1) slots.old }
{
    slots.copy_within(place..len, place + 1);
    slots[place] = entry;
}

// Takes away what stands at `place`, by moving what follows to the left.
pub(crate) fn remove_at<E: Copy>(slots: &mut [E], len: usize, place: usize)
    requires fits { len ≤ length slots.old }
    requires within { place < len }
    ensures items { take (len - 1) slots.new ≡ remove (take len slots.old) place }
    ensures rest { drop (len - 1) slots.new ≡ drop (len - 1) slots.old }
{
    slots.copy_within(place + 1..len, place);
}
