// Tables made of rows and of numbers, and rows put in and taken out.
use crate::agreeing::agree;
use crate::building::{numbers, row, table};
use crate::surveyed::TABLE;
use rows::{Fault, FrameNumbers, Numbers, Refusal, Row, Table, put_in, take_out};
use std::test::Fail;

// How many rows a table has, and its first and its last.
type Told = (usize, Option<Row>, Option<Row>);

// A table told so.
fn told(table: &Table) -> Told {
    let rows = table.rows();
    (table.len(), rows.first().copied(), rows.last().copied())
}

// The table that is made of numbers on a frame of so many ticks.
fn judged(ticks: u32, numbers: &[Numbers]) -> Result<Told, Fault> {
    let table = Table::judge(&FrameNumbers { ticks }.judge()?, numbers)?;
    Ok(told(&table))
}

#[test]
fn numbers_made_a_table(rt: HostRuntime) {
    let (a, e) = (row(1, 4, 4, 0), row(3, 12, 12, 0));
    agree(&rt, judged(12, &TABLE), Ok((3, Some(a), Some(e))));
    agree(&rt, judged(12, &[]), Ok((0, None, None)));
    let idle = numbers(0, 0, 0, 0);
    let off = numbers(1, 5, 5, 0);
    let refused = [
        judged(0, &[idle; 33]),
        judged(12, &[idle; 33]),
        judged(12, &[off, idle]),
        judged(12, &[TABLE[0], off]),
    ];
    let wanted = [
        Err(Refusal::BadFrame.at(0)),
        Err(Refusal::FullTable.at(0)),
        Err(Refusal::IdleRow.at(2)),
        Err(Refusal::OffFrame.at(2)),
    ];
    agree(&rt, refused, wanted);
}

// What becomes of rows that are to be a table on a frame of 6.
fn on_6(rows: &[Row]) -> Result<Told, Fault> {
    Ok(told(&table(6, rows)?))
}

#[test]
fn rows_made_a_table(rt: HostRuntime) {
    let (on, off) = (row(1, 6, 6, 0), row(1, 5, 5, 0));
    let tables = [on_6(&[on; 32]), on_6(&[off; 33]), on_6(&[on, off, on, off])];
    let wanted = [
        Ok((32, Some(on), Some(on))),
        Err(Refusal::FullTable.at(0)),
        Err(Refusal::OffFrame.at(2)),
    ];
    agree(&rt, tables, wanted);
}

// A refused call leaves the table as it was, and so does what becomes of a copy.
#[test]
fn rows_put_in_and_taken_out(rt: HostRuntime) -> Result<(), Fail> {
    let (a, b, off) = (row(1, 4, 4, 0), row(2, 6, 6, 1), row(1, 5, 5, 0));
    let mut table = table(12, &[b])?;
    let copy = table.copy();
    agree(&rt, table.put_in(1, a), Ok(()));
    let refused = [table.put_in(9, off), table.put_in(0, a), table.put_in(4, a)];
    let none = Refusal::NoRank.at(0);
    let fault = Refusal::OffFrame.at(0);
    agree(&rt, refused, [Err(fault), Err(none), Err(none)]);
    agree(&rt, told(&table), (2, Some(a), Some(b)));
    let taken = [table.take_out(3), table.take_out(2), table.take_out(0)];
    agree(&rt, taken, [Err(none), Ok(b), Err(none)]);
    agree(&rt, told(&table), (1, Some(a), Some(a)));
    agree(&rt, told(&copy), (1, Some(b), Some(b)));
    Ok(())
}

#[test]
fn a_full_table(rt: HostRuntime) -> Result<(), Fail> {
    let on = row(1, 6, 6, 0);
    let mut full = table(6, &[on; 32])?;
    let refused = [full.put_in(1, on), full.put_in(0, row(1, 5, 5, 0))];
    let faults = [Refusal::FullTable.at(0), Refusal::OffFrame.at(0)];
    agree(&rt, refused, [Err(faults[0]), Err(faults[1])]);
    agree(&rt, told(&full), (32, Some(on), Some(on)));
    Ok(())
}

// Any elements are put in and taken out so: the last place is dropped, and then stays.
#[test]
fn numbers_put_in_and_taken_out(rt: HostRuntime) {
    let mut list = [1, 2, 3, 4];
    agree(&rt, (put_in(&mut list, 2, 7), list), (Ok(()), [1, 7, 2, 3]));
    agree(&rt, (take_out(&mut list, 1), list), (Ok(()), [7, 2, 3, 3]));
    let none = Refusal::NoRank.at(0);
    let refused = [put_in(&mut list, 5, 9), take_out(&mut list, 0)];
    agree(&rt, (refused, list), ([Err(none); 2], [7, 2, 3, 3]));
}

// The refusal with a number is found among all.
#[test]
fn a_refusal_by_its_number(rt: HostRuntime) {
    let all = Refusal::all();
    let found = all.iter().find(|refusal| refusal.number() == 11);
    agree(&rt, found.copied(), Some(Refusal::Overload));
    let found = all.iter().find(|refusal| refusal.number() == 21);
    agree(&rt, found.copied(), Some(Refusal::NewcomerOverload));
}
