// Compiles to the sinks; the table last compiled to a buffer is kept.
use crate::call::Kind;
use crate::parity::Parity;
use crate::session::Session;
use crate::show::show_refused;
use gvar::compile::compile;
use printed::bytes::Bytes;
use std::alloc::Global;
use std::io::{BufWriter, Stdout, Write};
use std::{io, mem};
use write::buffer::Buffer;
use write::checksum::Checksum;
use write::counter::Counter;
use write::sink::Sink;

// No table is longer: the glyphs take at most 64 MiB, and offsets and shared peaks less than one more.
const MOST_BYTES: usize = 68157440;

// How long a table is, and how many variations the set had when it was compiled.
#[derive(Clone, Copy)]
struct Extent {
    length: usize,
    variations: usize,
}

// The table last compiled to a buffer, at the front of the memory that buffers are lent; none before the first.
#[derive(Drop)]
pub struct Kept {
    memory: Vec<u8>,
    extent: Option<Extent>,
}

impl Kept {
    pub fn none(alloc: Global) -> Kept {
        Kept {
            memory: Vec::new(alloc),
            extent: None,
        }
    }

    // The table, and how many variations the set had then.
    pub fn table(&self) -> Option<(&[u8], usize)> {
        let Extent { length, variations } = self.extent?;
        let table = self.memory.as_slice().get(..length)?;
        Some((table, variations))
    }
}

impl Session<'_> {
    // Compiles to the sink, and prints the answer; where the table is granted, `show` prints what the sink has then.
    fn compile_to<S: Sink, F: FnOnce(&mut BufWriter<Stdout>, &S) -> io::Result<()>>(
        &mut self,
        line: &str,
        sink: &mut S,
        show: F,
    ) -> io::Result<Option<usize>>
        requires { F.IsAlwaysCallable show }
    {
        let lent = &mut self.lent;
        let set = &lent.set;
        match compile(set, lent.counts, sink) {
            Ok(length) => {
                writeln!(self.out, "{line}: granted {length}")?;
                show(self.out, sink)?;
                Ok(Some(length))
            }
            Err(refusal) => {
                show_refused(self.out, line, refusal)?;
                Ok(None)
            }
        }
    }

    // A compile that is refused hands nothing over, so the table before it stays. The memory only grows, so it is filled
    // once and not at each compile.
    fn compile_buffer(&mut self, line: &str, allowance: usize) -> anyhow::Result<()> {
        let allowance = allowance.min(MOST_BYTES);
        let mut memory = mem::replace(&mut self.kept.memory, Vec::new(self.alloc));
        memory.resize(memory.len().max(allowance), 0)?;
        let mut buffer = Buffer::new(&mut memory.as_mut_slice()[..allowance]);
        let granted = self.compile_to(line, &mut buffer, |out, buffer| {
            writeln!(out, "table{}", Bytes(buffer.taken()))
        })?;
        self.kept.memory = memory;
        if let Some(length) = granted {
            let variations = self.lent.set.variation_count();
            self.kept.extent = Some(Extent { length, variations });
        }
        Ok(())
    }

    // Compiles to a sink of the kind with the allowance.
    pub fn compile(&mut self, line: &str, kind: Kind, allowance: usize) -> anyhow::Result<()> {
        match kind {
            Kind::Buffer => self.compile_buffer(line, allowance)?,
            Kind::Counter => {
                self.compile_to(line, &mut Counter::new(allowance), |out, counter| {
                    writeln!(out, "taken {}", counter.count())
                })?;
            }
            Kind::Checksum => {
                self.compile_to(line, &mut Checksum::new(allowance), |out, checksum| {
                    writeln!(out, "sum {:08X}", checksum.sum())
                })?;
            }
            Kind::Parity => {
                self.compile_to(line, &mut Parity::new(allowance), |out, parity| {
                    writeln!(out, "parity {:02X}", parity.bits())
                })?;
            }
        }
        Ok(())
    }
}
