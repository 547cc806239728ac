// How transactions become pending, and cease to be.
ghost use Rattle.std.specs.Prelude.{◌≡◌, [], ◌∷◌, ◌++◌, ◌<◌, ◌≤◌, take, length};
ghost use Rattle.schedule.specs.Transactions.{change_of};
ghost use Rattle.overlay.specs.Overlays.{pending_in};

use crate::pending::{Changes, Pending};
use schedule::schedule::Schedule;
use schedule::transaction::{Change, Transaction};

impl Pending {
    /// Nothing is pending.
    pub fn new() -> Pending
        ensures { pending_in result ≡ [] }
    {
        let filler = Change::Delete(Schedule::blank().key());
        Pending {
            slots: [filler; 32],
            len: 0,
        }
    }

    /// What is pending, in the order in which it joined.
    pub fn as_slice(&self) -> &[Change]
        ensures { result.now ≡ pending_in self.now }
    {
        &self.slots[..self.len]
    }

    // All that is pending.
    pub(crate) fn all(&self) -> Changes<'_>
        ensures { result.list.now ≡ pending_in self.now }
    {
        Changes {
            list: self.as_slice(),
        }
    }

    /// How many transactions are pending.
    pub fn len(&self) -> usize
        ensures { result ≡ length (pending_in self.now) }
    {
        self.as_slice().len()
    }

    /// A transaction joins after the others, of which there have to be fewer than 32.
    pub fn join(&mut self, transaction: Transaction)
        requires { length (pending_in self.old) < 32 }
        ensures { pending_in self.new ≡ pending_in self.old ++ change_of transaction ∷ [] }
    {
        let place = self.len;
        self.slots[place] = transaction.into();
        self.len = place + 1;
    }

    /// Drops all that is pending.
    pub fn clear(&mut self)
        ensures { pending_in self.new ≡ [] }
    {
        self.len = 0;
    }
}

impl Changes<'_> {
    // The first of them.
    pub(crate) fn first(&self, n: usize) -> Changes<'_>
        requires { n ≤ length self.now.list.now }
        ensures { result.list.now ≡ take n self.now.list.now }
    {
        Changes {
            list: &self.list[..n],
        }
    }
}
