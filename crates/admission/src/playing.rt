// A list of calls played on a new bench.
ghost use Rattle.std.specs.Prelude.{◌≡◌, map, length, IfErr, MatchResult};
ghost use Rattle.rows.specs.Answers.{first_refusal};
ghost use Rattle.rows.specs.Lists.{written, StaysOutside};
ghost use Rattle.admission.specs.Benches.{bench};
ghost use Rattle.admission.specs.Promises.{
  play_checks,
  play_refusal,
  StandingRowsMeet,
  OverloadsMiss,
  FirstMissesDecide,
  FinerAdmits,
  FinerRests,
};
ghost use Rattle.admission.specs.Replies.{answer_of};
ghost use Rattle.admission.specs.Runs.{book_after, answers_to};

use crate::benches::Bench;
use crate::calls::{Call, Reply};
use crate::unplayed::NotPlayed;
use bounds::Bound;
use rows::Refusal;

/// Plays a list of calls on a new bench, and puts the reply to each into a list, at the call's place;
/// the places past the last call stay (docs/RULES.md, The bench). Answers the bench that the calls
/// have come to.
///
/// Refused with 12, short list, at 0 where the list has fewer places than there are calls
/// (docs/REFUSALS.md): then nothing is played, the list stays as it was, and the bound comes back.
pub fn play<B: Bound>(
    bound: B,
    calls: &[Call],
    replies: &mut [Reply],
) -> Result<Bench<B>, NotPlayed<B>>
    ensures answered { play_refusal result
        ≡ first_refusal (play_checks calls.now (length replies.old)) }
    ensures played { MatchResult result
        (λ b. b ≡ bench (B.meaning bound) bound (book_after (B.meaning bound) calls.now))
        (λ _. replies.new ≡ replies.old) }
    ensures returned { IfErr result (λ not_played. not_played.bound ≡ bound) }
    ensures replied { MatchResult result
        (λ _. map answer_of replies.new
        ≡ written (map answer_of replies.old) 0 (answers_to (B.meaning bound) calls.now))
        (λ _. replies.new ≡ replies.old) }
    ensures stay { StaysOutside 0 (length calls.now) replies.old replies.new }
    ensures meet { StandingRowsMeet (B.meaning bound) }
    ensures overloads { OverloadsMiss (B.meaning bound) }
    ensures decide { FirstMissesDecide (B.meaning bound) }
    ensures finer_admits { FinerAdmits }
    ensures finer_rests { FinerRests }
{
    if replies.len() < calls.len() {
        let fault = Refusal::ShortList.at(0);
        return Err(NotPlayed { bound, fault });
    }
    let mut bench = Bench::new(bound);
    for (i, call) in calls.iter().enumerate() {
        replies[i] = bench.call(*call);
    }
    Ok(bench)
}
