// Laws of the ledger.
ghost use Rattle.runs.specs.Laws.{RefusedLeavesNoTrace, AbandonLeavesNoTrace, ShownIgnoresExtract, TwoOrdersOneMap, SameTrainsSameLines, CancelledNeverShown, TallyCounts, NothingWithoutConfirm, ConfirmedCouldBeDone};

/// A refused call leaves no trace in any later ledger.
pub fn refused_leaves_no_trace()
    ensures { RefusedLeavesNoTrace }
{}

/// An extract that is opened, read and abandoned leaves no trace.
pub fn abandon_leaves_no_trace()
    ensures { AbandonLeavesNoTrace }
{}

/// What is shown before a confirmation does not depend on the open extract.
pub fn shown_ignores_extract()
    ensures { ShownIgnoresExtract }
{}

/// Two orders of the same trains' changes give one map.
pub fn two_orders_one_map()
    ensures { TwoOrdersOneMap }
{}

/// Two orders of the same trains' changes give the same lines, where both boards are turned to one station and day.
pub fn same_trains_same_lines()
    ensures { SameTrainsSameLines }
{}

/// A train that is cancelled on the day of the board is never shown on it.
pub fn cancelled_never_shown()
    ensures { CancelledNeverShown }
{}

/// The tally grows at a confirmation by the number of its transactions, up to its most.
pub fn tally_counts()
    ensures { TallyCounts }
{}

/// The map, the tally and the reference change by confirmations alone.
pub fn nothing_without_confirm()
    ensures { NothingWithoutConfirm }
{}

/// Each transaction that was confirmed could be done when its turn came: N found its key absent, R and D found it there.
pub fn confirmed_could_be_done()
    ensures { ConfirmedCouldBeDone }
{}
