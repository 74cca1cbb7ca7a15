// Prints, for each shipped stack of layers, its words, and what it answers to a table of questions.
// A question is an operation and its arguments; a type is written with each label before its parts, a leaf as `#` and its number.
#![tactic(auto)]

mod questions;
mod tables;
#[cfg(test)]
mod tests;

use cores::interface::Core;
use cores::mini_c::MiniC;
use cores::mini_ml::MiniMl;
use cores::pairs::{Pairs, WithPairs};
use questions::{answer_text, word_text};
use std::fmt::Display;

// A stack's words, as far as the names of the table go, and its answers.
fn show<C: Core>(rt: &HostRuntime, name: &str, core: &C, questions: &[&str]) -> anyhow::Result<()>
where
    C::Cause: Display,
{
    let count = core.count();
    println!(rt; "{name}: {count} words")?;
    for word in &tables::NAMES {
        if let Some(text) = word_text(rt.alloc(), core, word)? {
            println!(rt; "  {text}")?;
        }
    }
    for question in questions {
        let text = answer_text(rt.alloc(), core, question)?;
        println!(rt; "  {text}")?;
    }
    Ok(())
}

fn main(rt: HostRuntime) -> anyhow::Result<()> {
    show(&rt, "ml", &MiniMl, &tables::ML)?;
    show(&rt, "c", &MiniC, &tables::C)?;
    show(
        &rt,
        "pair-ml",
        &WithPairs {
            layer: Pairs,
            below: MiniMl,
        },
        &tables::PAIR_ML,
    )?;
    show(
        &rt,
        "pair-c",
        &WithPairs {
            layer: Pairs,
            below: MiniC,
        },
        &tables::PAIR_C,
    )
}
