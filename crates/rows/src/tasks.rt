// A task as four plain numbers, and as a row that passed judgement.
ghost use Rattle.std.specs.Prelude.{◌+◌, ◌≤◌};
ghost use Rattle.rows.specs.Times.{horizon};

/// Four plain numbers that nobody has judged: work, deadline, period and jitter of a task to be, in
/// ticks.
#[derive(Clone, Copy, PartialEq, Eq, Debug)]
pub struct Numbers {
    pub work: u32,
    pub deadline: u32,
    pub period: u32,
    pub jitter: u32,
}

/// A row of a table: a sporadic task that passed judgement (docs/RULES.md, Rows). Its work is its
/// worst-case execution time, its deadline is counted from release, its period is the least gap
/// between two releases, and its jitter the longest wait from release to readiness, all in ticks.
/// Rank 1 is the highest priority.
#[derive(Clone, Copy, PartialEq, Eq, Debug)]
pub struct Row {
    pub work: u32,
    pub deadline: u32,
    pub period: u32,
    pub jitter: u32,
    pub ghost busy: { 1 ≤ work },
    pub ghost roomy: { work + jitter ≤ deadline },
    pub ghost timely: { deadline ≤ period },
    pub ghost near: { period ≤ horizon },
}

// What a place of a list holds that no row has been put into.
impl Default for Row {
    fn default() -> Row {
        Row {
            work: 1,
            deadline: 1,
            period: 1,
            jitter: 0,
        }
    }
}
