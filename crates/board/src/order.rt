// The order of lines.
ghost use Rattle.board.specs.Lines.{line_before, line_key};
ghost use Rattle.board.specs.LineOrders.{line_irreflexive, line_transitive, line_total};

use crate::line::{Line, LineKey};
use ordered::keys::{KeyOrder, Keyed};

impl KeyOrder for LineKey {
    ghost before = { line_before };

    ghost irreflexive = { line_irreflexive };

    ghost transitive = { line_transitive };

    ghost total = { line_total };

    fn is_before(&self, other: &LineKey) -> bool {
        self < other
    }
}

impl Keyed for Line {
    type Key = LineKey;

    ghost keyed = { line_key };

    fn key(&self) -> LineKey {
        self.key
    }
}
