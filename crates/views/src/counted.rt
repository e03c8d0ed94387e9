// A task table read and counted, in exact steps and by bounds.
ghost use Rattle.std.specs.Prelude.{◌≡◌, ◌≤◌, ◌∷◌, [], length, map, not, take, true, is_some, IfOk, IfErr, IsOkAnd};
ghost use Rattle.rows.specs.Answers.{Passes};
ghost use Rattle.rows.specs.declared.refusals.Refusal.TheVariants.{BadAccuracy};
ghost use Rattle.bounds.specs.Families.{can_have, supplied_plain};
ghost use Rattle.filings.specs.Checks.{bound_check, bound_checks};
ghost use Rattle.filings.specs.Filings.{filed};
ghost use Rattle.task_tables.specs.Tables.{ReadsAll};
ghost use Rattle.views.specs.Counted.{IsCountOf, IsFiledLeaf, counted_table};
ghost use Rattle.views.specs.Troubles.{IsTroubleOf, TellsUncounted, TroubleTells, bad_kind, has_no_room, of_table};

use crate::explained::explained;
use crate::troubles::Trouble;
use bounds::{Family, Supplied};
use filings::{Filing, Progress, count_by, judge};
use rows::{Fault, FrameNumbers, Refusal, Table};
use sheets::MOST_ANSWER;
use std::alloc::{AllocError, Global};
use std::io::Read;
use std::marker::Model;
use task_tables::{ReadError, TaskTable, read};

/// How a table is counted: on which frame, where one is named, else on the least common multiple of the
/// periods; and beside exact steps by which bounds, each named by its kind and an accuracy, which is 0 where
/// there is but one of the kind and else from 1 to 64 (docs/PROGRAMS.md, Task tables).
#[derive(Clone, Copy)]
pub struct Counting<'a> {
    pub frame: Option<FrameNumbers>,
    pub bounds: &'a [(Family, u32)],
}

/// A task table that was read and counted, in exact steps and by the bounds that were named.
#[derive(Drop)]
pub struct Counted {
    table: TaskTable,
    exact: Filing,
    bounded: Vec<Filing>,
}

impl Model for Counted {
    ghost use Rattle.std.specs.Prelude.{◌≡◌, map};
    ghost use Rattle.bounds.specs.declared.families.Family.TheVariants.{ExactSteps};
    ghost use Rattle.filings.specs.Filings.{filed};
    ghost use Rattle.views.specs.Counted.{CountedTable};

    ghost Value = { CountedTable };

    ghost view = { λ c. record {
      table = c.table;
      frame = c.exact.frame;
      rows = c.exact.rows;
      bounds = map (λ f. f.bound) c.bounded.items;
    } };

    ghost invariant = { λ c. (c.exact ≡ filed c.exact.frame (ExactSteps, 0) c.exact.rows)
        × (c.bounded.items ≡ map (λ b. filed c.exact.frame b c.exact.rows) (map (λ f. f.bound) c.bounded.items)) };
}

/// Reads a task table and counts it by each of the bounds that are named, in their order, and then in exact
/// steps. The progress is told after each row of every count (docs/PROGRAMS.md, Task tables,
/// `yabreznul file`).
///
/// Where something is refused, the first of these is told: what cannot be taken of the text, and 9, full
/// table; 1, bad frame, where one is named; 3, bad accuracy, of the first bound that has one; 4 to 8 of the
/// rows; and last 1, bad frame, where none is named and the periods have no common multiple up to the
/// horizon. Where there is no memory for the counts, it is told as of a table that could not be read.
pub fn count_table<R: Read, P: Progress>(
    alloc: Global,
    reader: &mut R,
    how: Counting<'_>,
    progress: &mut P,
) -> Result<Counted, Trouble>
    ensures read { IfOk result (λ c. ReadsAll (R.remaining reader.old) c.table) }
    ensures counted { IfOk result (λ c. IsCountOf how.entry.frame how.entry.bounds.now c) }
    ensures refused { IfErr result (λ t.
        IsTroubleOf (of_table (R.remaining reader.old) how.entry.frame how.entry.bounds.now) t) }
{
    match read(alloc, reader) {
        Ok(table) => count_read(alloc, table, how, progress),
        Err(error) => Err(Trouble::Table(error)),
    }
}

// Counts a table that was read.
fn count_read<P: Progress>(
    alloc: Global,
    table: TaskTable,
    how: Counting<'_>,
    progress: &mut P,
) -> Result<Counted, Trouble>
    ensures read { IfOk result (λ c. c.table ≡ table) }
    ensures counted { IfOk result (λ c. IsCountOf how.entry.frame how.entry.bounds.now c) }
    ensures refused { IfErr result (λ t. TellsUncounted how.entry.frame how.entry.bounds.now table t) }
{
    match judge(how.frame, how.bounds, table.numbers()) {
        Ok(judged) => count_judged(alloc, table, &judged, how.bounds, progress),
        Err(fault) => Err(trouble(alloc, &table, how, fault)),
    }
}

// Counts a table that was judged.
fn count_judged<P: Progress>(
    alloc: Global,
    table: TaskTable,
    judged: &Table,
    bounds: &[(Family, u32)],
    progress: &mut P,
) -> Result<Counted, Trouble>
    requires { Passes (bound_checks bounds.now) }
    ensures counted { IfOk result (λ c. c ≡ counted_table table judged.now.frame judged.now.rows bounds.now) }
    ensures room { IfErr result (λ t. has_no_room t ≡ true) }
{
    match count_each(alloc, bounds, judged, progress) {
        Ok(bounded) => {
            let exact = count_by(Supplied::ExactSteps, judged, progress);
            Ok(Counted {
                table,
                exact,
                bounded,
            })
        }
        Err(error) => Err(Trouble::Table(ReadError::Memory(error))),
    }
}

// The counts of a table by bounds that have passed their checks, in order.
fn count_each<P: Progress>(
    alloc: Global,
    bounds: &[(Family, u32)],
    table: &Table,
    progress: &mut P,
) -> Result<Vec<Filing>, AllocError>
    requires { Passes (bound_checks bounds.now) }
    ensures { IfOk result (λ counts. counts.items ≡ map (λ b. filed table.now.frame b table.now.rows) bounds.now) }
{
    let mut counts = Vec::new(alloc);
    for bound in bounds {
        counts.push(count_by(bound_of(*bound), table, progress))?;
    }
    Ok(counts)
}

// The bound that a kind and an accuracy name, which are checked.
fn bound_of(bound: (Family, u32)) -> Supplied
    requires { Passes (bound_check bound ∷ []) }
    ensures { supplied_plain result ≡ bound }
{
    let (family, accuracy) = bound;
    family.bound(accuracy).unwrap()
}

// What is told of a refusal of the numbers of a table, for which a frame was named or not, and bounds.
pub(crate) fn trouble(alloc: Global, table: &TaskTable, how: Counting<'_>, fault: Fault) -> Trouble
    requires { fault.refusal ≡ BadAccuracy → is_some (bad_kind how.bounds.now) ≡ true }
    ensures { TroubleTells how.entry.frame how.entry.bounds.now fault.refusal result }
{
    match (fault.refusal, how.frame) {
        (Refusal::BadFrame, Some(_)) => Trouble::Frame,
        (Refusal::BadFrame, None) => Trouble::NoFrame,
        (Refusal::BadAccuracy, _) => Trouble::Accuracy(bad_kind(how.bounds).unwrap()),
        _ => explained(alloc, table, fault),
    }
}

// The kind of the first bound whose accuracy is bad, among those that are named.
fn bad_kind(bounds: &[(Family, u32)]) -> Option<Family>
    ensures { result ≡ bad_kind bounds.now }
{
    for bound in bounds {
        if is_bad(bound) {
            return Some(bound.0);
        }
    }
    None
}

// Whether a bound is named by an accuracy that no bound of its kind has.
#[tactic(auto, using(crate::proofs::BadKinds::is_made))]
fn is_bad(bound: &(Family, u32)) -> bool
    ensures { result ≡ not (can_have bound.now.0 bound.now.1) }
{
    let (family, accuracy) = *bound;
    family.bound(accuracy).is_err()
}

impl Counted {
    ghost use Rattle.std.specs.Prelude.{◌≡◌};
    ghost use Rattle.views.specs.Counted.{by_bounds, in_exact_steps};

    // The table that was read.
    pub(crate) fn task_table(&self) -> &TaskTable
        ensures { result.now ≡ self.now.table }
    {
        &self.table
    }

    /// The counts by the bounds that were named, in their order.
    pub fn bounded(&self) -> &[Filing]
        ensures { result.now ≡ by_bounds self.now }
    {
        self.bounded.as_slice()
    }

    /// The count of the same rows in exact steps.
    pub fn exact(&self) -> &Filing
        ensures { result.now ≡ in_exact_steps self.now }
    {
        &self.exact
    }
}

/// The leaf of a count, as bytes: the encoding of the survey by its bound (docs/FORMAT.md). Memory alone can
/// fail.
pub fn leaf_of(alloc: Global, filing: &Filing) -> Result<Vec<u8>, AllocError>
    ensures { IfOk result (λ bytes. IsFiledLeaf filing.now bytes.items) }
{
    let mut buffer = [0; MOST_ANSWER];
    let filed = filing.file(&mut buffer);
    filed_in(alloc, &buffer, filed)
}

// What was filed in front in a buffer that has room for every leaf.
fn filed_in(
    alloc: Global,
    buffer: &[u8],
    filed: Result<usize, Fault>,
) -> Result<Vec<u8>, AllocError>
    requires { IsOkAnd filed (λ n. n ≤ length buffer.now) }
    ensures { IfOk result (λ bytes. IfOk filed (λ n. bytes.items ≡ take n buffer.now)) }
{
    Vec::from_slice(alloc, &buffer[..filed.unwrap()])
}
