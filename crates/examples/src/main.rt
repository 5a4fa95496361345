// Prints each worked example and whether the code gives what it says.
#![tactic(auto)]

mod list;
mod run;

use list::worked_examples;
use run::holds;
use std::io;

fn main(rt: HostRuntime) -> io::Result<()> {
    for example in worked_examples() {
        let verdict = if holds(&example) { "holds" } else { "FAILS" };
        println!(rt; "{example}: {verdict}")?;
    }
    Ok(())
}
