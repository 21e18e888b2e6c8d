// Runs worked streams through the packing and the reading, and tries the sinks at their limits. What it prints is compared
// with lines that were written from the format's rules.
#![tactic(auto)]

mod show;
mod sinks;

use show::{show_deltas, show_points};
use sinks::try_sinks;

fn runs_of_deltas(rt: &HostRuntime) -> anyhow::Result<()> {
    show_deltas(rt, &[1, 0, 2])?;
    show_deltas(rt, &[1, 0, 0, 2])?;
    show_deltas(rt, &[300, 1, 300])?;
    show_deltas(rt, &[-128])?;
    show_deltas(rt, &[-129])?;
    show_deltas(rt, &[127])?;
    show_deltas(rt, &[128])?;
    show_deltas(rt, &[32767, -32768])?;
    show_deltas(rt, &[300, 0, 300])?;
    show_deltas(rt, &[300, 1, 0])?;
    show_deltas(rt, &[300, 1, 1])?;
    show_deltas(rt, &[300, 1])?;
    show_deltas(rt, &[1, 300])?;
    show_deltas(rt, &[])
}

fn long_runs(rt: &HostRuntime) -> anyhow::Result<()> {
    show_deltas(rt, &[0; 64])?;
    show_deltas(rt, &[0; 65])?;
    show_deltas(rt, &[1; 65])?;
    show_deltas(rt, &[300; 65])
}

fn runs_of_points(rt: &HostRuntime) -> anyhow::Result<()> {
    show_points(rt, 300, &[255])?;
    show_points(rt, 300, &[256])?;
    show_points(rt, 301, &[2, 300])?;
    show_points(rt, 302, &[300, 301])?;
    show_points(rt, 3, &[0, 1, 2])?;
    show_points(rt, 3, &[])
}

fn run(rt: &HostRuntime) -> anyhow::Result<()> {
    runs_of_deltas(rt)?;
    long_runs(rt)?;
    runs_of_points(rt)?;
    try_sinks(rt)
}

fn main(rt: HostRuntime) -> anyhow::Result<()> {
    run(&rt)
}
