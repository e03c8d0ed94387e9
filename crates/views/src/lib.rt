//! Views: the subcommands of `yabreznul`, each a function over readers and writers (docs/PROGRAMS.md,
//! `yabreznul`).
#![tactic(auto)]

mod comparing;
mod counted;
mod damage;
mod differences;
mod drawing;
mod explained;
mod inputs;
mod layouts;
mod leaf_cells;
mod outputs;
mod printing;
mod records;
mod responding;
mod sheeting;
mod showing;
mod troubles;
mod utilisation;

pub use comparing::compare;
pub use counted::{Counted, Counting, count_table, leaf_of};
pub use damage::Damage;
pub use differences::Difference;
pub use drawing::plot;
pub use layouts::Layout;
pub use responding::respond;
pub use sheeting::sheet;
pub use showing::Show;
pub use task_tables::Printable;
pub use troubles::Trouble;
