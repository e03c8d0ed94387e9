// The refusals of a table, told where the number stands that each is about.
ghost use Rattle.std.specs.Prelude.{◌≡◌, IfOk};
ghost use Rattle.task_tables.specs.Explained.{IsExplained, IsSpotOf, complaint_of, told_of};

use crate::columns::Column;
use crate::misreads::{Expected, Misread, Refused, Spot};
use crate::tables::TaskTable;
use rows::{Fault, HORIZON, Numbers, Refusal};
use std::alloc::{AllocError, Global};

// Which number of a task a refusal is about, and what was expected of it.
#[derive(Clone, Copy)]
struct Complaint {
    column: Column,
    number: u32,
    expected: Expected,
}

// What a refusal says of the numbers of a task, where it is one of those about a task.
fn complaint_of(refusal: Refusal, numbers: Numbers) -> Option<Complaint>
    ensures { result ≡ complaint_of refusal numbers }
{
    let (column, number, expected) = match refusal {
        Refusal::IdleRow => (Column::Work, numbers.work, Expected::Work),
        Refusal::NoWindow => (
            Column::Work,
            numbers.work,
            Expected::Window {
                deadline: numbers.deadline,
                jitter: numbers.jitter,
            },
        ),
        Refusal::LateDeadline => (
            Column::Deadline,
            numbers.deadline,
            Expected::Deadline {
                period: numbers.period,
            },
        ),
        Refusal::LongPeriod => (
            Column::Period,
            numbers.period,
            Expected::Period { horizon: HORIZON },
        ),
        Refusal::OffFrame => (Column::Period, numbers.period, Expected::Divisor),
        _ => return None,
    };
    Some(Complaint {
        column,
        number,
        expected,
    })
}

impl TaskTable {
    /// A refusal of this table, told where the number stands that it is about (docs/PROGRAMS.md, Task
    /// tables): 4, idle row, and 5, no window, at the work; 6, late deadline, at the
    /// deadline; 7, long period, and 8, off frame, at the period of the task at the rank that the
    /// fault tells. Any other fault, and one at a rank that is not there, is told by its number and
    /// words alone.
    pub fn explain(&self, alloc: Global, fault: Fault) -> Result<Misread, AllocError>
        ensures { IfOk result (λ m. IsExplained self.now fault m) }
    {
        let (spot, rank) = match self.complaint_at(fault) {
            Some((line, complaint)) => {
                (Some(self.spot(alloc, line, complaint)?), Some(fault.at))
            }
            None => (None, None),
        };
        Ok(Misread {
            spot,
            refused: Some(Refused {
                refusal: fault.refusal,
                rank,
            }),
        })
    }

    // What a fault says of the task at its rank, and the line of that task.
    fn complaint_at(&self, fault: Fault) -> Option<(u64, Complaint)>
        ensures { result ≡ told_of self.now fault }
    {
        let place = (fault.at as usize).checked_sub(1)?;
        let line = self.line_at(place)?;
        let numbers = self.numbers().get(place)?;
        Some((line, complaint_of(fault.refusal, *numbers)?))
    }

    // The number that a complaint is about, where it stands.
    fn spot(&self, alloc: Global, line: u64, complaint: Complaint) -> Result<Spot, AllocError>
        ensures { IfOk result (λ spot. IsSpotOf self.now line complaint spot) }
    {
        Ok(Spot {
            line,
            field: self.field_of(complaint.column),
            column: Some(complaint.column),
            stood: complaint.number.to_string(alloc)?,
            expected: complaint.expected,
        })
    }
}
