//! Answers the sheet in standard input on standard output (docs/FORMAT.md, The answer to a sheet).
//!
//! It only moves bytes: it reads the first bytes of the input, as many as decide, asks for their
//! answer, and writes it. A refusal is an answer too; only input or output that fails is an error.
#![tactic(auto)]

mod answers;
mod surveying;
#[cfg(test)]
mod tests;

use surveying::{name_failure, run};

fn main(rt: HostRuntime) -> anyhow::Result<()> {
    run(&mut rt.stdin(), &mut rt.stdout()).map_err(name_failure)?;
    Ok(())
}
