//! The two stores by their words.
ghost use Rattle.std.specs.Prelude.{◌≡◌, Some, option_map};
ghost use Rattle.tasks.specs.Stores.{store_word, store_named};

use std::fmt;
use std::fmt::{Display, Formatter};

/// Which of the two stores schedules are put into.
#[derive(Clone, Copy)]
pub enum StoreKind {
    /// The table in key order.
    Table,
    /// The table in any order.
    Bag,
}

impl StoreKind {
    /// The store that has a word, `table` or `bag`.
    pub fn named(word: &str) -> Option<StoreKind>
        ensures { result ≡ store_named word.now }
    {
        match word {
            "table" => Some(StoreKind::Table),
            "bag" => Some(StoreKind::Bag),
            _ => None,
        }
    }
}

impl Display for StoreKind {
    ghost output = { λ store. Some (store_word store) };

    fn fmt<W: fmt::Write>(&self, f: &mut Formatter<W>) -> fmt::Result {
        f.write_str(match self {
            StoreKind::Table => "table",
            StoreKind::Bag => "bag",
        })
    }
}
