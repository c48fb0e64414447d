//! Four stations settle an operating point; one is faulty, tells every other one something else and is king once.

#![tactic(auto)]

mod outcome;
mod purpose;
mod scene;
mod scenes;
mod told;
mod vote;

use outcome::Outcome;
use scene::Scene;
use scenes::scenes;

fn run(rt: &HostRuntime) -> anyhow::Result<()> {
    println!(rt;
        "4 stations settle an operating point in {} rounds; 1 of them may be faulty, and station 0 is.",
        Scene::rounds()
    )?;
    let outcomes = scenes()?.map(Outcome::of);
    for (number, outcome) in (1..=outcomes.len()).zip(&outcomes) {
        println!(rt; "\nvote {number}")?;
        outcome.show(rt)?;
    }
    let kept = outcomes
        .iter()
        .filter(|outcome| outcome.keeps_promise())
        .count();
    println!(rt;
        "\n{kept} of {} votes kept what is promised.",
        outcomes.len()
    )?;
    Ok(())
}

fn main(rt: HostRuntime) -> anyhow::Result<()> {
    run(&rt)
}
