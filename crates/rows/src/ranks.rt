// An element put in at a rank of a list, or taken out: one text for every kind of element.
ghost use Rattle.std.specs.Prelude.{◌≡◌, ◌-◌, ◌++◌, length, take, drop, MatchResult};
ghost use Rattle.std.specs.List.{insert, remove};
ghost use Rattle.rows.specs.Answers.{answer, checked};
ghost use Rattle.rows.specs.Ranks.{rank_checks};

use crate::refusals::{Fault, Refusal};

/// Whether a rank is one of so many: from 1 to the last.
///
/// Refused with 10, no rank, at 0 where it is not (docs/REFUSALS.md).
pub fn check_rank(last: usize, rank: usize) -> Result<(), Fault>
    ensures { answer (λ u. u) result ≡ checked (rank_checks last rank) tt }
{
    if rank == 0 || rank > last {
        return Err(Refusal::NoRank.at(0));
    }
    Ok(())
}

/// Puts an element in at a rank, and those from there on move down by one. The list has a place more
/// than elements: what its last place held is dropped.
///
/// Refused with 10, no rank, at 0 outside 1 to the number of places (docs/REFUSALS.md); the list then
/// stays as it was.
pub fn put_in<T: Copy>(list: &mut [T], rank: usize, element: T) -> Result<(), Fault>
    ensures answered { answer (λ u. u) result ≡ checked (rank_checks (length list.old) rank) tt }
    ensures put { MatchResult result
        (λ _. list.new ≡ insert (take (length list.old - 1) list.old) (rank - 1) element)
        (λ _. list.new ≡ list.old) }
{
    check_rank(list.len(), rank)?;
    let place = rank - 1;
    let last = list.len() - 1;
    list.copy_within(place..last, rank);
    list[place] = element;
    Ok(())
}

/// Takes the element at a rank out, and those below it move up by one. The last place stays as it
/// was.
///
/// Refused with 10, no rank, at 0 outside 1 to the number of places (docs/REFUSALS.md); the list then
/// stays as it was.
pub fn take_out<T: Copy>(list: &mut [T], rank: usize) -> Result<(), Fault>
    ensures answered { answer (λ u. u) result ≡ checked (rank_checks (length list.old) rank) tt }
    ensures taken { MatchResult result
        (λ _. list.new ≡ remove list.old (rank - 1) ++ drop (length list.old - 1) list.old)
        (λ _. list.new ≡ list.old) }
{
    check_rank(list.len(), rank)?;
    list.copy_within(rank.., rank - 1);
    Ok(())
}
