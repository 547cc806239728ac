// Extracts of as many rows as there may be.
use controller::controller::Controller;
use controller::fault::ExtractFault;
use schedule::record::Record;
use schedule::schedule::Schedule;
use std::process::Abort;
use stores::{Bag, Table};
use timetable::Store;

// A row that begins with a text and has a byte in column 80, and blanks elsewhere.
fn row(text: &[u8], last: u8) -> [u8; 80] {
    let mut bytes = [b' '; 80];
    for (to, from) in bytes.iter_mut().zip(text) {
        *to = *from;
    }
    bytes[79] = last;
    bytes
}

fn header() -> [u8; 80] {
    row(b"HD                              DFROC1A       F", b' ')
}

fn begin() -> [u8; 80] {
    row(b"BSNC123452312112405311111100    1A23", b'P')
}

// A row at a TIPLOC whose name ends in two digits, with a public arrival or none.
fn call(tiploc: u8, time: &[u8; 4]) -> [u8; 80] {
    let mut bytes = row(b"LISTOP00                 00000000", b' ');
    bytes[6] = b'0' + tiploc / 10 % 10;
    bytes[7] = b'0' + tiploc % 10;
    for (to, from) in bytes.iter_mut().skip(25).zip(time) {
        *to = *from;
    }
    bytes
}

// Whether a row was refused with a number and column, and told as that of its extract.
fn is_told(r: Result<(), ExtractFault>, number: u8, column: u8, place: u16) -> bool {
    r.is_err_and(|fault| {
        fault.fault.fault.refusal.number() == number
            && fault.fault.fault.column == column
            && fault.row == place
    })
}

// Hands a row over so many times.
fn repeat<S: Store>(rt: &impl Abort, c: &mut Controller<S>, row: &[u8; 80], times: u32) {
    for _ in 0..times {
        assert!(rt; c.row(row).is_ok());
    }
}

// Between transactions: after 9,999 rows only ZZ is taken, and a row out of place is told so.
fn full_between<S: Store>(rt: &impl Abort, c: &mut Controller<S>) {
    let association = row(b"AA", b' ');
    assert!(rt; c.open(&header()).is_ok());
    repeat(rt, c, &association, 9_998);
    assert!(rt; c.rows_taken() == 9_999);
    assert!(rt; is_told(c.row(&association), 12, 1, 10_000));
    assert!(rt; is_told(c.row(&begin()), 12, 1, 10_000));
    assert!(rt; is_told(c.row(&call(1, b"1200")), 4, 1, 10_000));
    assert!(rt; is_told(c.row(&row(b"TX", b' ')), 3, 1, 10_000));
    assert!(rt; c.row(&row(b"ZZ", b' ')).is_ok());
    assert!(rt; c.rows_taken() == 10_000);
    assert!(rt; is_told(c.row(&association), 4, 1, 10_001));
    assert!(rt; c.abandon().is_ok());
    assert!(rt; c.rows_taken() == 0);
}

// On the way: a 49th call and a third visit are told above too many rows.
fn full_running<S: Store>(rt: &impl Abort, c: &mut Controller<S>) {
    assert!(rt; c.open(&header()).is_ok());
    assert!(rt; c.row(&begin()).is_ok());
    assert!(rt; c.row(&row(b"LOSTART        0000   ", b' ')).is_ok());
    repeat(rt, c, &call(50, b"1200"), 2);
    repeat(rt, c, &call(51, b"0000"), 9_994);
    assert!(rt; c.rows_taken() == 9_999);
    assert!(rt; is_told(c.row(&call(50, b"1200")), 11, 3, 10_000));
    assert!(rt; is_told(c.row(&call(51, b"0000")), 12, 1, 10_000));
    assert!(rt; is_told(c.row(&call(51, b"1260")), 5, 26, 10_000));
    assert!(rt; c.abandon().is_ok());
}

// The same with 48 calls.
fn full_calls<S: Store>(rt: &impl Abort, c: &mut Controller<S>) {
    assert!(rt; c.open(&header()).is_ok());
    assert!(rt; c.row(&begin()).is_ok());
    assert!(rt; c.row(&row(b"LOSTART        0000   ", b' ')).is_ok());
    for place in 0..24u8 {
        repeat(rt, c, &call(place, b"1200"), 2);
    }
    repeat(rt, c, &call(51, b"0000"), 9_948);
    assert!(rt; c.rows_taken() == 9_999);
    assert!(rt; is_told(c.row(&call(60, b"1200")), 10, 3, 10_000));
    assert!(rt; is_told(c.row(&call(0, b"1200")), 10, 3, 10_000));
    assert!(rt; is_told(c.row(&call(60, b"0000")), 12, 1, 10_000));
    assert!(rt; c.abandon().is_ok());
    assert!(rt; is_told(c.abandon(), 4, 0, 0));
}

fn all_full<S: Store + Drop>(rt: &impl Abort, store: S) {
    let mut c = Controller::new(store);
    full_between(rt, &mut c);
    full_running(rt, &mut c);
    full_calls(rt, &mut c);
}

#[test]
fn full_over_a_table(rt: HostRuntime) {
    let mut slots: [Record; 2] = [Schedule::blank().into(); 2];
    all_full(&rt, Table::new(&mut slots));
}

#[test]
fn full_over_a_bag(rt: HostRuntime) {
    let mut slots: [Record; 2] = [Schedule::blank().into(); 2];
    all_full(&rt, Bag::new(&mut slots));
}
