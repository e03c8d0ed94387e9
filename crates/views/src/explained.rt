// A fault of a table, told where the number stands that it is about.
ghost use Rattle.views.specs.Troubles.{TellsFault};

use crate::troubles::Trouble;
use rows::Fault;
use std::alloc::Global;
use task_tables::TaskTable;

// What is told of a fault of a table.
pub(crate) fn explained(alloc: Global, table: &TaskTable, fault: Fault) -> Trouble
    ensures { TellsFault table.now fault result }
{
    match table.explain(alloc, fault) {
        Ok(misread) => Trouble::Row(misread),
        Err(error) => Trouble::Memory(error),
    }
}
