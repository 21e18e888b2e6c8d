// Runs a script line by line: first the lines that lead to a set, then the calls on it.
use crate::call::{Call, CallError, form_wanted};
use crate::session::Session;
use crate::show::show_refused;
use crate::sizes::{ample, within};
use lent::memory::{Memory, Sizes};
use sets::axis::AxisCount;
use std::alloc::Global;
use std::io::{BufWriter, Stdout, Write};

// A line of the script with its number, from 1 on.
#[derive(Clone, Copy)]
pub struct Line<'a> {
    pub number: usize,
    pub text: &'a str,
}

// The set to open: its axes and stores, and how many lines of the script lead to it.
#[derive(Clone, Copy)]
struct Opening {
    axes: AxisCount,
    sizes: Sizes,
    lines: usize,
}

// Why the line gives no call; without memory the script ends.
fn show_no_call(
    out: &mut BufWriter<Stdout>,
    line: Line<'_>,
    error: CallError,
) -> anyhow::Result<()> {
    let Line { number, text } = line;
    match error {
        CallError::Form => {
            let form = form_wanted(text);
            writeln!(out, "line {number}: no call: {form} is wanted")?;
            Ok(())
        }
        CallError::Memory(memory) => Err(memory.into()),
    }
}

// Runs the lines up to the one that opens a set, if one does.
fn run_opening(
    out: &mut BufWriter<Stdout>,
    alloc: Global,
    script: &str,
) -> anyhow::Result<Option<Opening>> {
    let most = ample(script);
    let mut sizes = most;
    for (number, text) in (1usize..).zip(script.lines()) {
        match Call::of(alloc, text) {
            Ok(Call::Stores(asked)) => {
                sizes = within(asked, most);
                writeln!(out, "{text}: granted")?;
            }
            Ok(Call::Axes(count)) => match AxisCount::new(count) {
                Ok(axes) => {
                    writeln!(out, "{text}: granted")?;
                    return Ok(Some(Opening {
                        axes,
                        sizes,
                        lines: number,
                    }));
                }
                Err(refusal) => show_refused(out, text, refusal)?,
            },
            Ok(_) => writeln!(out, "line {number}: no set is open: axes N opens one")?,
            Err(error) => show_no_call(out, Line { number, text }, error)?,
        }
    }
    Ok(None)
}

// Runs the lines past the opening.
fn run_lines(session: &mut Session<'_>, script: &str, past: usize) -> anyhow::Result<()> {
    for (number, text) in (1usize..).zip(script.lines()).skip(past) {
        let line = Line { number, text };
        match Call::of(session.alloc, text) {
            Ok(call) => session.run(line, call)?,
            Err(error) => show_no_call(session.out, line, error)?,
        }
    }
    Ok(())
}

// Runs a whole script, and prints a line for each call.
pub fn run_script(out: &mut BufWriter<Stdout>, alloc: Global, script: &str) -> anyhow::Result<()> {
    let Some(opening) = run_opening(out, alloc, script)? else {
        return Ok(());
    };
    let mut memory = Memory::blank(alloc, opening.sizes)?;
    let mut session = Session::new(out, alloc, memory.open(opening.axes));
    run_lines(&mut session, script, opening.lines)
}
