// Trial runs of the crates below, compared with plain models that share no code with them but the types of sizes, steps and refusals.
#![tactic(auto)]

mod finder;
mod five_tables;
mod generator;
mod kinds;
mod mismatches;
mod model;
mod opening;
mod places;
mod plain;
mod playing;
mod walk;

fn main(rt: HostRuntime) -> anyhow::Result<()> {
    run(&rt)
}

fn run(rt: &HostRuntime) -> anyhow::Result<()> {
    five_tables::run(rt)?;
    walk::run(rt)?;
    finder::run(rt)?;
    places::run(rt)
}
