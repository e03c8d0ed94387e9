// The three rows of the worked table, and calls to a bench with them.
ghost use Rattle.std.specs.Prelude.{◌≡◌, [], ◌∷◌};
ghost use Rattle.worked.specs.Table.{Worked, row_a, row_b, row_e, worked_calls};

use admission::Call;
use rows::{FrameNumbers, Numbers, Row};

/// The frame of the worked table.
pub const FRAME: FrameNumbers = FrameNumbers { ticks: 12 };

/// The rows of the worked table in rank order (docs/RULES.md, A worked table). What is found about
/// them is counted by hand, and proved.
#[tactic(auto, using(crate::proofs::ByHand::worked))]
pub fn worked_rows() -> [Row; 3]
    ensures answered { result ≡ row_a ∷ row_b ∷ row_e ∷ [] }
    ensures worked { Worked }
{
    [
        Row {
            work: 1,
            deadline: 4,
            period: 4,
            jitter: 0,
        },
        Row {
            work: 2,
            deadline: 6,
            period: 6,
            jitter: 1,
        },
        Row {
            work: 3,
            deadline: 12,
            period: 12,
            jitter: 0,
        },
    ]
}

// Task G: above B and E it pushes both out, and below B it misses itself.
const CROWD: Numbers = Numbers {
    work: 5,
    deadline: 6,
    period: 6,
    jitter: 0,
};

/// The calls to a bench of the worked table, in order (docs/RULES.md, A worked table): E is refused
/// below A and B, and admitted once A has left; then G is refused above B and E, and between them.
/// `Worked` has what a bench by the linear tail of accuracy 2 answers.
pub fn worked_calls() -> [Call; 9]
    ensures { result ≡ worked_calls }
{
    let [a, b, e] = worked_rows();
    [
        Call::Frame(FRAME),
        Call::Admit(1, a.numbers()),
        Call::Admit(2, b.numbers()),
        Call::Admit(3, e.numbers()),
        Call::Dismiss(1),
        Call::Admit(2, e.numbers()),
        Call::Inquire(2),
        Call::Admit(1, CROWD),
        Call::Admit(2, CROWD),
    ]
}
