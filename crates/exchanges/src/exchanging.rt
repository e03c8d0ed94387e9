// A row that stands on a bench, exchanged for another one.
ghost use Rattle.std.specs.Prelude.{◌≡◌, OnOk, OnErr};
ghost use Rattle.rows.specs.Answers.{refusal, first_refusal};
ghost use Rattle.admission.specs.Benches.{bench as bench_of};
ghost use Rattle.exchanges.specs.Exchanged.{exchanged, exchange_checks};

use admission::Bench;
use bounds::Bound;
use rows::{Fault, Numbers};

/// Exchanges the row at a rank of a bench for the row of four numbers, in ticks (docs/RULES.md, The
/// bench): the old row is dismissed, and the new one admitted at its rank.
///
/// Refused with 10, no rank, at 0 where no row stands at the rank; else as the admission of the new
/// row is without the old one: at 0 with 4, idle row, 5, no window, 6, late deadline, 7, long
/// period, or 8, off frame; with 21, newcomer overload, at its rank where the new row itself would
/// miss; with 11, overload, at the smallest rank where another would (docs/REFUSALS.md). A refused
/// call leaves the bench as it was: the old row is admitted back.
pub fn exchange<B: Bound>(bench: &mut Bench<B>, rank: usize, numbers: Numbers) -> Result<(), Fault>
    ensures answered { refusal result
        ≡ first_refusal (exchange_checks (B.meaning bench.old.bound) bench.old.book rank numbers) }
    ensures exchanged { OnOk result (bench.new
        ≡ bench_of (B.meaning bench.old.bound) bench.old.bound (exchanged rank numbers bench.old.book)) }
    ensures refused { OnErr result (bench.new ≡ bench.old) }
{
    let (old, _) = bench.inquire(rank)?;
    bench.dismiss(rank)?;
    let answer = bench.admit(rank, numbers);
    if answer.is_err() {
        // With the old row all others met, so it is admitted back.
        bench.admit(rank, old.numbers()).unwrap();
    }
    answer
}
