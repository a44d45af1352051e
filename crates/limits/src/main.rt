// The edges of every rule, each shown beside the result that a person worked out.
#![tactic(auto)]

mod hosts;
mod numbers;
mod scripts;
mod texts;

fn main(rt: HostRuntime) -> anyhow::Result<()> {
    texts::show(&rt)?;
    numbers::show(&rt)?;
    scripts::show(&rt)?;
    hosts::show(&rt)
}
