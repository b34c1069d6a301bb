//! Prints every worked case: its title, and a line for each call.
#![tactic(auto)]

mod cases;
mod play;

use cases::CASES;

fn main(rt: HostRuntime) -> anyhow::Result<()> {
    for case in &CASES {
        case.play(&rt)?;
    }
    Ok(())
}
