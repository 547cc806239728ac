//! The schedules of files put into both stores.
ghost use Rattle.std.specs.Prelude.{◌≡◌, min, [], length, IsTrue};
ghost use Rattle.schedule.specs.Records.{is_schedule};

use crate::drafts::{Draft, StoreRequest};
use crate::error::{TaskError, read_file};
use cif::reading::read;
use files::Rows;
use forms::letters::Stp;
use schedule::key::Key;
use schedule::order::next_in_train;
use schedule::record::Record;
use schedule::schedule::Schedule;
use stores::{Bag, Table};
use timetable::{Store, Timetable};
use wording::changes::{KeyWords, RecordWords};

/// The record of a cancellation that hides nothing, for slots that hold nothing yet.
pub fn empty_record() -> Record
    ensures { IsTrue (is_schedule result) }
{
    let blank = Record::from(Schedule::blank());
    let key = Key {
        stp: Stp::Cancellation,
        ..blank.key
    };
    Record { key, ..blank }
}

// What two stores answered, where both answered the same.
fn common(table: bool, bag: bool) -> Option<bool> {
    if table == bag { Some(table) } else { None }
}

// The words for what both stores answered, or that they differ.
fn common_words(common: Option<bool>, good: &'static str, bad: &'static str) -> &'static str {
    match common {
        Some(true) => good,
        Some(false) => bad,
        None => "table and bag differ",
    }
}

/// A table and a bag, which are asked the same.
#[derive(Drop)]
pub struct Both<'a> {
    table: Table<'a>,
    bag: Bag<'a>,
}

impl<'a> Both<'a> {
    ghost use Rattle.list_tasks.specs.Keeping.{table_records, bag_records, table_capacity, bag_capacity, CapacitiesKept};

    /// Two empty stores, each over its slots, whatever they hold.
    pub fn new(table: &'a mut [Record], bag: &'a mut [Record]) -> Both<'a>
        ensures table_empty { table_records result ≡ [] }
        ensures bag_empty { bag_records result ≡ [] }
        ensures table { table_capacity result ≡ min (length table.old) 65535 }
        ensures bag { bag_capacity result ≡ min (length bag.old) 65535 }
    {
        Both {
            table: Table::new(table),
            bag: Bag::new(bag),
        }
    }

    // Puts a schedule into both stores.
    fn put(&mut self, schedule: Schedule) -> Option<bool>
        ensures { CapacitiesKept self.old self.new }
    {
        let table = self.table.put(schedule).is_ok();
        let bag = self.bag.put(schedule).is_ok();
        common(table, bag)
    }

    // Takes a key out of both stores.
    fn remove(&mut self, key: Key) -> Option<bool>
        ensures { CapacitiesKept self.old self.new }
    {
        let table = self.table.remove(key);
        let bag = self.bag.remove(key);
        common(table, bag)
    }

    // Does what is asked to both stores, and prints what came of it.
    fn do_request(&mut self, rt: &HostRuntime, request: StoreRequest) -> anyhow::Result<()>
        ensures { CapacitiesKept self.old self.new }
    {
        match request {
            StoreRequest::Put(schedule) => {
                let result = common_words(self.put(schedule), "done", "refused, the store is full");
                let key = KeyWords(schedule.key());
                println!(rt; "put {key}: {result}")?;
            }
            StoreRequest::Unfit(key) => {
                let key = KeyWords(key);
                println!(rt; "put {key}: not a schedule")?;
            }
            StoreRequest::Remove(key) => {
                let result = common_words(self.remove(key), "yes", "no");
                let key = KeyWords(key);
                println!(rt; "remove {key}: {result}")?;
            }
        }
        Ok(())
    }

    /// Does what the rows of a file ask to both stores. Both capacities stay.
    pub fn take_file(&mut self, rt: &HostRuntime, name: &str) -> Result<(), TaskError>
        ensures { CapacitiesKept self.old self.new }
    {
        let bytes = read_file(rt, name)?;
        let mut draft = Draft::new();
        for row in Rows::new(bytes.as_slice()) {
            if let Ok(content) = read(row)
                && let Some(request) = draft.take(content)
            {
                self.do_request(rt, request)?;
            }
        }
        Ok(())
    }

    // Prints what the table holds in key order, and says whether the bag holds the same.
    fn print_rows(&mut self, rt: &HostRuntime) -> anyhow::Result<bool>
        ensures { self.new ≡ self.old }
    {
        let mut same = self.table.count() == self.bag.count();
        let mut probe = Key {
            uid: 0,
            from: 0,
            stp: Stp::Cancellation,
        };
        for _ in 0..self.table.count() {
            let Some(fields) = least(&mut self.table, probe) else {
                return Ok(false);
            };
            let words = RecordWords(&fields);
            println!(rt; "{words}")?;
            same = same && least(&mut self.bag, probe) == Some(fields);
            probe = next_in_train(fields.key);
        }
        Ok(same)
    }

    /// Lists both stores, which stay as they were.
    pub fn print_stores(&mut self, rt: &HostRuntime) -> anyhow::Result<()>
        ensures { self.new ≡ self.old }
    {
        let held = self.table.count();
        let most = self.table.capacity();
        println!(rt; "table: {held} of {most}")?;
        let verdict = if self.print_rows(rt)? {
            "the same map"
        } else {
            "another map"
        };
        let held = self.bag.count();
        let most = self.bag.capacity();
        println!(rt; "bag: {held} of {most}, {verdict}")?;
        Ok(())
    }
}

// The record of the least key not before a probe.
fn least<S: Timetable>(store: &mut S, probe: Key) -> Option<Record>
    ensures { store.new ≡ store.old }
{
    let key = store.not_before(probe)?;
    let mut place = Schedule::blank();
    if store.find(key, &mut place) {
        Some(place.into())
    } else {
        None
    }
}
