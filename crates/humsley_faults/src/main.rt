// The program humsley once more, for its stored run on texts that do not lex.
#![tactic(auto)]

use account::run::run;

// A text with a fault, as seen from the root of the repository.
const SAMPLE: &str = "crates/humsley_faults/data/Dash.unit";

fn main(rt: HostRuntime) -> anyhow::Result<()> {
    run(&rt, SAMPLE)
}
