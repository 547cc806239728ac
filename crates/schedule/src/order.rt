// The order of keys.
ghost use Rattle.std.specs.Prelude.{◌≡◌, ◌<◌, IsTrue, IsFalse};
ghost use Rattle.schedule.specs.declared.key.Key.{Key};
ghost use Rattle.schedule.specs.Keys.{rank_of, key_before};
ghost use Rattle.schedule.specs.Records.{key_of};
ghost use Rattle.schedule.specs.Orders.{key_irreflexive, key_transitive, key_total};

use crate::key::Key;
use crate::record::Record;
use forms::letters::Stp;
use ordered::keys::{KeyOrder, Keyed};

/// The place of an STP letter in the order C, N, O, P, from 0 on.
pub fn rank(stp: Stp) -> u8
    ensures { result ≡ rank_of stp }
{
    match stp.letter() as char {
        'C' => 0,
        'N' => 1,
        'O' => 2,
        'P' => 3,
        _ => unreachable!(),
    }
}

/// The key right after another of a train, unless that one's day is the last that 16 bits can hold.
pub fn next_in_train(key: Key) -> Key
    ensures later { key.from < 65535 → IsTrue (key_before key result) }
    ensures tight { (q : Key) → IsTrue (key_before q result) → IsFalse (key_before key q) }
    ensures train { result.uid ≡ key.uid }
{
    match key.stp {
        Stp::Cancellation => Key {
            stp: Stp::ShortTerm,
            ..key
        },
        Stp::ShortTerm => Key {
            stp: Stp::Overlay,
            ..key
        },
        Stp::Overlay => Key {
            stp: Stp::Permanent,
            ..key
        },
        Stp::Permanent => Key {
            from: key.from.saturating_add(1),
            stp: Stp::Cancellation,
            ..key
        },
    }
}

impl KeyOrder for Key {
    ghost before = { key_before };

    ghost irreflexive = { key_irreflexive };

    ghost transitive = { key_transitive };

    ghost total = { key_total };

    fn is_before(&self, other: &Key) -> bool {
        (self.uid, self.from, rank(self.stp)) < (other.uid, other.from, rank(other.stp))
    }
}

impl Keyed for Record {
    type Key = Key;

    ghost keyed = { key_of };

    fn key(&self) -> Key {
        self.key
    }
}
