// The layouts in which leaves are shown.

/// How leaves are shown: as tables for people, or as records for programs (docs/PROGRAMS.md, `yabreznul show`).
#[derive(Clone, Copy)]
pub enum Layout {
    Aligned,
    Csv,
    Json,
}
