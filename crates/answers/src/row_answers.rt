// What is answered about a row.
use crate::row_questions::RowQuestion;
use crate::told::{OrNone, ToldAnswer};
use bounds::{Bound, ExactSteps, LinearTail};
use brackets::{Counts, count_both, least_accuracy, response_time, slow_rest};
use findings::find;
use rows::{Fault, Finding, Row, Table};
use std::fmt;
use std::io::Write;

// What `find` answers about a row by a bound, where the rows above it are a table.
fn find_by<B: Bound>(bound: &B, row: &Row, table: Result<&Table, Fault>) -> ToldAnswer<Found> {
    ToldAnswer(table.and_then(|table| find(bound, row, table)).map(Found))
}

// What `count_both` answers.
fn count_both_by<B: Bound>(bound: &B, row: &Row, table: Result<&Table, Fault>) -> ToldAnswer<Both> {
    ToldAnswer(
        table
            .and_then(|table| count_both(bound, row, table))
            .map(Both),
    )
}

/// Prints what each call about a row answers: `find` in exact steps and by the linear tail,
/// `count_both` by that tail, `response_time`, `least_accuracy`, and `slow_rest` by its accuracy.
pub(crate) fn answer_by_tail<W: Write + Drop>(
    tail: &LinearTail,
    question: &RowQuestion,
    writer: &mut W,
) -> anyhow::Result<()> {
    let RowQuestion { above, row, .. } = question;
    let table = question.table();
    let table = table.as_ref().map_err(|fault| *fault);
    let exact = find_by(&ExactSteps, row, table);
    let bounded = find_by(tail, row, table);
    let both = count_both_by(tail, row, table);
    let response = ToldAnswer(response_time(row, above).map(OrNone));
    let least = ToldAnswer(
        table
            .and_then(|table| least_accuracy(row, table))
            .map(OrNone),
    );
    let slow = ToldAnswer(slow_rest(tail.accuracy(), row, above).map(OrNone));
    writeln!(
        writer,
        "{exact}, {bounded}, {both}, {response}, {least}, {slow}"
    )?;
    Ok(())
}

/// Prints what two calls about a row answer by a bound: `find`, and `count_both`.
pub(crate) fn answer_by<B: Bound, W: Write + Drop>(
    bound: &B,
    question: &RowQuestion,
    writer: &mut W,
) -> anyhow::Result<()> {
    let table = question.table();
    let table = table.as_ref().map_err(|fault| *fault);
    let bounded = find_by(bound, &question.row, table);
    let both = count_both_by(bound, &question.row, table);
    writeln!(writer, "{bounded}, {both}")?;
    Ok(())
}

// A finding.
#[derive(Clone, Copy)]
struct Found(Finding);

// The first rest, "-" where the row misses, and the points.
impl fmt::Display for Found {
    fn fmt<W: fmt::Write>(&self, f: &mut fmt::Formatter<W>) -> fmt::Result {
        let rest = OrNone(self.0.verdict.rest());
        let points = self.0.points;
        write!(f, "{rest} {points}")
    }
}

// Two findings about one row.
#[derive(Clone, Copy)]
struct Both(Counts);

// Both findings, and how far they part.
impl fmt::Display for Both {
    fn fmt<W: fmt::Write>(&self, f: &mut fmt::Formatter<W>) -> fmt::Result {
        let exact = Found(self.0.exact);
        let bounded = Found(self.0.bounded);
        let gap = OrNone(self.0.gap());
        write!(f, "{exact} {bounded} {gap}")
    }
}
