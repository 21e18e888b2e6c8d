// Reads cases from standard input, each of them the stores of a set and a list of calls, and prints the answer to each
// call. What it prints is compared with lines that were worked out from the rules.
#![tactic(auto)]

mod answer;
mod case;
mod compiling;
mod memory;
mod words;

use answer::show_refusal;
use case::Case;
use memory::read_memory;
use sets::axis::AxisCount;
use std::io::{BufRead, BufReader, BufWriter, Stdout, Write};
use words::parsed;

// A line `NAME AXES GLYPHS VARIATIONS VALUES DELTAS blank|odd COUNTS` with the number of cells of each store, and calls.
fn run_case(rt: &HostRuntime, out: &mut BufWriter<Stdout>, line: &str) -> anyhow::Result<()> {
    let mut words = line.split_whitespace();
    write!(out, "{}:", words.next().unwrap_or(""))?;
    let axes = parsed::<u16>(&mut words)?;
    let mut memory = read_memory(rt.alloc(), &mut words)?;
    match AxisCount::new(axes) {
        Ok(axes) => {
            let mut case = Case::new(rt.alloc(), out, memory.open(axes), words);
            case.run()?;
        }
        Err(refusal) => show_refusal(out, refusal)?,
    }
    writeln!(out, "")?;
    Ok(())
}

fn run(rt: &HostRuntime) -> anyhow::Result<()> {
    let mut out = BufWriter::new(rt.alloc(), rt.stdout())?;
    for line in BufReader::new(rt.alloc(), rt.stdin())?.lines(rt.alloc()) {
        let line = line?;
        run_case(rt, &mut out, line.as_str())?;
    }
    out.flush()?;
    Ok(())
}

fn main(rt: HostRuntime) -> anyhow::Result<()> {
    run(&rt)
}
