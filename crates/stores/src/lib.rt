//! Two stores over slots from the caller: a table in key order, and a bag in any order.
#![tactic(auto)]

pub mod slot_store;

use crate::slot_store::SlotStore;
use loose::loose::Loose;
use ordered::ordered::Ordered;
use schedule::record::Record;

/// The store that keeps schedules in the order of their keys.
pub type Table<'a> = SlotStore<Ordered<'a, Record>>;

/// The store that keeps schedules in any order, no two of one key.
pub type Bag<'a> = SlotStore<Loose<'a, Record>>;
