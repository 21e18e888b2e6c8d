// The compiles, to each of the sinks.
use crate::answer::{Cells, show_compiled};
use crate::case::Case;
use crate::words::parsed;
use counts::cells::CountCell;
use gvar::compile::compile;
use printed::bytes::Bytes;
use sets::refusal::Refusal;
use sets::set::Set;
use std::alloc::{AllocError, Global};
use std::io::Write;
use write::buffer::Buffer;
use write::checksum::Checksum;
use write::counter::Counter;
use write::sink::Sink;

// The answer of a compile to the sink, and what became of the count cells.
fn compiled<S: Sink>(
    alloc: Global,
    set: &Set<'_>,
    counts: &mut [CountCell],
    sink: &mut S,
) -> Result<(Result<usize, Refusal>, Cells), AllocError> {
    let before = Vec::from_slice(alloc, &*counts)?;
    let answer = compile(set, counts, sink);
    Ok((answer, Cells::since(before.as_slice(), &*counts)))
}

impl Case<'_, '_> {
    // Compiles to the sink and prints the answer; what became of the count cells is still to be printed.
    fn compile_to<S: Sink>(&mut self, sink: &mut S) -> anyhow::Result<Cells> {
        let lent = &mut self.lent;
        let set = &lent.set;
        let (answer, cells) = compiled(self.alloc, set, lent.counts, sink)?;
        show_compiled(self.out, answer)?;
        Ok(cells)
    }

    // The words ALLOWANCE FROM COUNT: so many bytes of the memory are shown, taken or not; before, each is EE.
    pub fn compile_buffer(&mut self) -> anyhow::Result<()> {
        let allowance = parsed::<usize>(&mut self.words)?;
        let from = parsed::<usize>(&mut self.words)?;
        let count = parsed::<usize>(&mut self.words)?;
        let mut memory = vec![in self.alloc; 0xEE; allowance]?;
        let cells = self.compile_to(&mut Buffer::new(memory.as_mut_slice()))?;
        let end = from.saturating_add(count).min(allowance);
        let shown = memory.as_slice().get(from..end).unwrap_or(&[]);
        write!(self.out, ":{}{cells}", Bytes(shown))?;
        Ok(())
    }

    // The word ALLOWANCE; the number of bytes taken is shown.
    pub fn compile_counter(&mut self) -> anyhow::Result<()> {
        let mut counter = Counter::new(parsed::<usize>(&mut self.words)?);
        let cells = self.compile_to(&mut counter)?;
        write!(self.out, ": {}{cells}", counter.count())?;
        Ok(())
    }

    // The word ALLOWANCE; the sum is shown.
    pub fn compile_checksum(&mut self) -> anyhow::Result<()> {
        let mut checksum = Checksum::new(parsed::<usize>(&mut self.words)?);
        let cells = self.compile_to(&mut checksum)?;
        write!(self.out, ": {:08X}{cells}", checksum.sum())?;
        Ok(())
    }
}
