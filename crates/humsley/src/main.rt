// humsley FILE..: gives an account of each unit text; with no argument, of the sample that the repository ships.
#![tactic(auto)]

use account::run::run;

// The sample, as seen from the root of the repository.
const SAMPLE: &str = "crates/humsley/data/Address.unit";

fn main(rt: HostRuntime) -> anyhow::Result<()> {
    run(&rt, SAMPLE)
}
