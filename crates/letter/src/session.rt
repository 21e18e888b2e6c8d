// The calls on an open set.
use crate::call::Call;
use crate::compiling::Kept;
use crate::script::Line;
use crate::show::show_answer;
use lent::memory::Opened;
use std::alloc::Global;
use std::io;
use std::io::{BufWriter, Stdout, Write};

// An open set, the table last compiled to a buffer, and where the answers are printed.
#[derive(Drop)]
pub struct Session<'a> {
    pub out: &'a mut BufWriter<Stdout>,
    pub alloc: Global,
    pub lent: Opened<'a>,
    pub kept: Kept,
}

impl<'a> Session<'a> {
    pub fn new(out: &'a mut BufWriter<Stdout>, alloc: Global, lent: Opened<'a>) -> Session<'a> {
        Session {
            out,
            alloc,
            lent,
            kept: Kept::none(alloc),
        }
    }

    // Why the call cannot be run any more.
    fn late(&mut self, line: Line<'_>, why: &str) -> io::Result<()> {
        writeln!(self.out, "line {}: {why}", line.number)
    }

    // Runs one call, and prints the answer.
    pub fn run(&mut self, line: Line<'_>, call: Call) -> anyhow::Result<()> {
        match call {
            Call::Stores(_) => self.late(line, "the stores are lent already")?,
            Call::Axes(_) => self.late(line, "the set is open already")?,
            Call::Glyph(number) => {
                let answer = self.lent.set.glyph(number);
                show_answer(self.out, line.text, answer)?;
            }
            Call::Variation(tents, deltas) => {
                let answer = self.lent.set.variation(tents.as_slice(), deltas.as_slice());
                show_answer(self.out, line.text, answer)?;
            }
            Call::Compile { kind, allowance } => self.compile(line.text, kind, allowance)?,
            Call::Read { glyph, points } => self.read(line, glyph, points)?,
        }
        Ok(())
    }
}
