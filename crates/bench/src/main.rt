//! Plays the script in standard input on a new bench, and answers its calls on standard output
//! (docs/PROGRAMS.md, `bench`).
//!
//! A refusal is an answer, and so is what is told of a line that is no call; only input or output
//! that fails is an error.
#![tactic(auto)]

#[cfg(test)]
mod tests;

use scripts::{name_failure, run};

fn main(rt: HostRuntime) -> anyhow::Result<()> {
    run(&mut rt.stdin(), &mut rt.stdout()).map_err(|failure| name_failure(failure))?;
    Ok(())
}
