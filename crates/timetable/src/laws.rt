// Laws of timetables, and a first use of any store.
ghost use Rattle.std.specs.Prelude.{◌≡◌, OnOk};
ghost use Rattle.timetable.specs.Laws.{LookupsDecide, OthersKeep, NotBeforeIsLeast, set_if_schedule, set_all, put_if_schedule, puts_of};

use crate::{Store, Timetable};
use ordered::table::Full;
use schedule::record::Record;
use schedule::schedule::Schedule;

/// Maps with the same schedule under every key are the same map.
pub fn lookups_decide()
    ensures { LookupsDecide }
{}

/// Every key but the one that is put or removed keeps its schedule.
pub fn others_keep()
    ensures { OthersKeep }
{}

/// Not-before answers the least key.
pub fn not_before_is_least()
    ensures { NotBeforeIsLeast }
{}

// Puts a record's schedule, if it is one, into a store of any make.
fn put_one<S: Store>(store: &mut S, fields: &Record) -> Result<(), Full>
    ensures map { OnOk result
        ((S.meaning store.new).map ≡ set_if_schedule (S.meaning store.old).map fields.now) }
    ensures capacity { (S.meaning store.new).capacity ≡ (S.meaning store.old).capacity }
    ensures becomes { OnOk result
        (S.Store.becomes store.old (put_if_schedule fields.now) store.new) }
{
    match Schedule::try_from(*fields) {
        Ok(schedule) => store.put(schedule),
        Err(_) => Ok(()),
    }
}

/// Puts those of the records that are schedules into a store of any make, up to the first that finds no room.
pub fn put_all<S: Store>(store: &mut S, records: &[Record]) -> Result<(), Full>
    ensures map { OnOk result
        ((S.meaning store.new).map ≡ set_all (S.meaning store.old).map records.now) }
    ensures capacity { (S.meaning store.new).capacity ≡ (S.meaning store.old).capacity }
    ensures becomes { OnOk result (S.Store.becomes store.old (puts_of records.now) store.new) }
{
    for fields in records {
        put_one(store, fields)?;
    }
    Ok(())
}
