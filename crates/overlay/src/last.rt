// The last transaction on a key.
ghost use Rattle.std.specs.Prelude.{◌≡◌};
ghost use Rattle.overlay.specs.Overlays.{is_on, last_on};

use schedule::key::Key;
use schedule::transaction::Change;

// Whether a transaction is on a key.
fn is_on(change: &Change, key: Key) -> bool
    ensures { result ≡ is_on key change.now }
{
    change.key() == key
}

// The last of some transactions on a key.
pub(crate) fn last_on(changes: &[Change], key: Key) -> Option<Change>
    ensures { result ≡ last_on key changes.now }
{
    changes
        .iter()
        .rev()
        .find(|change| is_on(change, key))
        .copied()
}
