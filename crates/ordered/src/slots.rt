// Slots that a caller lends, the first of which hold elements.
ghost use Rattle.std.specs.Prelude.{◌≤◌, length};

/// A list of fixed room over lent slots: its elements fit them.
#[derive(Drop)]
pub struct Slots<'a, E> {
    /// The slots that were lent, those without an element among them.
    pub slots: &'a mut [E],
    /// How many of the slots, from the first on, hold an element.
    pub len: usize,
    ghost fits: { len ≤ length slots.now },
}

impl<E> Slots<'_, E> {
    ghost use Rattle.std.specs.Prelude.{◌≡◌, []};
    ghost use Rattle.ordered.specs.Tables.{items, room, IsLent};

    /// A list over `slots` that holds nothing, whatever they have in them.
    pub fn new<'b>(slots: &'b mut [E]) -> Slots<'b, E>
        ensures empty { items result ≡ [] }
        ensures room { room result ≡ length slots.old }
        ensures lent { IsLent slots.entry result }
    {
        Slots { slots, len: 0 }
    }

    /// How many elements are held.
    pub fn len(&mut self) -> usize
        ensures value { result ≡ length (items self.old) }
        ensures same { self.new ≡ self.old }
    {
        self.len
    }

    /// How many elements there is room for, those that are held included.
    pub fn room(&mut self) -> usize
        ensures value { result ≡ room self.old }
        ensures same { self.new ≡ self.old }
    {
        self.slots.len()
    }

    /// The elements that are held.
    pub fn as_slice(&self) -> &[E]
        ensures { result.now ≡ items self.now }
    {
        &self.slots[..self.len]
    }
}
