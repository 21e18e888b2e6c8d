// Runs a script of calls: adds glyphs and variations to a set, compiles its table, reads it back, and prints each answer.
#![tactic(auto)]

mod call;
mod compare;
mod compiling;
mod parity;
mod reading;
mod script;
mod session;
mod show;
mod sizes;

use script::run_script;
use std::io::{BufWriter, Read, Write};

// The script that is run where none is given: one letter with one point.
const STORED: &str = "axes 1
glyph 0
variation 16384 ; 10,-3,r
compile buffer 1000
compile counter 1000
compile checksum 1000
compile buffer 39
read 0 1
";

// The text on standard input.
fn given_script(rt: &HostRuntime) -> anyhow::Result<String> {
    let mut bytes = Vec::new(rt.alloc());
    rt.stdin().read_to_end(&mut bytes)?;
    Ok(String::from_utf8_lossy(rt.alloc(), bytes.as_slice())?)
}

fn run_given(rt: &HostRuntime) -> anyhow::Result<()> {
    let given = given_script(rt)?;
    let mut out = BufWriter::new(rt.alloc(), rt.stdout())?;
    let script = if given.trim().is_empty() {
        STORED
    } else {
        given.as_str()
    };
    run_script(&mut out, rt.alloc(), script)?;
    out.flush()?;
    Ok(())
}

fn main(rt: HostRuntime) -> anyhow::Result<()> {
    run_given(&rt)
}
