// Laws of extracts and of the table of refusals.
ghost use Rattle.controller.specs.Laws.{OverlayIsOfRows, PendingMayBeDone, PendingFits, UppermostIsTold, ReadFromBsToLt, CallsInRowOrder};
ghost use Rattle.controller.specs.ScheduleRows.{ScheduleRowsMakeOne, BriefRowJoinsAtOnce, OtherRowsAddNone};
ghost use Rattle.controller.specs.ExtractRows.{RowsComeToParts, ExtractComesToParts};
ghost use Rattle.controller.specs.WorkedExtract.{WorkedExtract};
ghost use Rattle.controller.specs.LedgerRows.{LedgerRowsAreTaken};
ghost use Rattle.controller.specs.Dated.{NothingChangesWithoutNoEnd};

/// The overlay's map is the store's with the transactions of the rows done in order, whatever the store.
pub fn overlay_is_of_rows()
    ensures { OverlayIsOfRows }
{}

/// Each transaction of the rows, done in order, is one that the table of refusals lets through.
pub fn pending_may_be_done()
    ensures { PendingMayBeDone }
{}

/// What the pending transactions add always fits the store when they are done in order.
pub fn pending_fits()
    ensures { PendingFits }
{}

/// A table tells its uppermost line that holds, and nothing exactly when no line holds.
pub fn uppermost_is_told()
    ensures { UppermostIsTold }
{}

/// A schedule is being read from its BS to its LT.
pub fn read_from_bs_to_lt()
    ensures { ReadFromBsToLt }
{}

/// Kept calls stand in row order.
pub fn calls_in_row_order()
    ensures { CallsInRowOrder }
{}

/// The rows of a schedule make one transaction.
pub fn schedule_rows_make_one_transaction()
    ensures { ScheduleRowsMakeOne }
{}

/// A BS that deletes or cancels adds its own transaction at once.
pub fn brief_row_joins_at_once()
    ensures { BriefRowJoinsAtOnce }
{}

/// Any other row adds none.
pub fn other_rows_add_none()
    ensures { OtherRowsAddNone }
{}

/// Rows that leave no schedule half read come to the transactions of their parts.
pub fn rows_come_to_parts()
    ensures { RowsComeToParts }
{}

/// A whole extract comes to the transactions of its parts.
pub fn extract_comes_to_parts()
    ensures { ExtractComesToParts }
{}

/// A worked extract is taken row by row, and comes to its two transactions.
pub fn worked_extract()
    ensures { WorkedExtract }
{}

/// The rows of a ledger were taken, and what is confirmed are the transactions of their parts.
pub fn ledger_rows_are_taken()
    ensures { LedgerRowsAreTaken }
{}

/// Where no row of a ledger, confirmed or open, says that a train has no end, its transactions, its map, and the verdict on every call that
/// is not handed such a row are those that they were while every schedule had a last day, and so are the board lines, unless the store had
/// a schedule with no end in it at the start. Where no call is handed such a row, all this is so after whatever calls, judged by both.
pub fn nothing_changes_without_no_end()
    ensures { NothingChangesWithoutNoEnd }
{}
