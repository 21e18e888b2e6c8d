// A case: an open set with its count cells, and the calls on it.
use crate::answer::show_calls;
use crate::words::parsed;
use anyhow::bail;
use lent::memory::Opened;
use sets::refusal::Refusal;
use std::alloc::Global;
use std::io::{BufWriter, Stdout, Write};
use std::str::SplitWhitespace;
use tents::tent::{Bounds, Tent};
use variations::delta::GlyphDelta;

#[derive(Drop)]
pub struct Case<'a, 'w> {
    pub alloc: Global,
    pub out: &'a mut BufWriter<Stdout>,
    pub lent: Opened<'a>,
    // the words that are still to be read
    pub words: SplitWhitespace<'w>,
}

impl<'a, 'w> Case<'a, 'w> {
    pub fn new(
        alloc: Global,
        out: &'a mut BufWriter<Stdout>,
        lent: Opened<'a>,
        words: SplitWhitespace<'w>,
    ) -> Case<'a, 'w> {
        Case {
            alloc,
            out,
            lent,
            words,
        }
    }

    // Makes the calls one after another, each named by a word. No line has more words than the loop has turns.
    pub fn run(&mut self) -> anyhow::Result<()> {
        for _ in 0..u64::MAX {
            match self.words.next() {
                Some("glyph") => self.begin_glyphs()?,
                Some("variation") => self.add_variations()?,
                Some("buffer") => self.compile_buffer()?,
                Some("counter") => self.compile_counter()?,
                Some("checksum") => self.compile_checksum()?,
                Some(_) => bail!("no such call"),
                None => break,
            }
        }
        Ok(())
    }

    // Glyphs with so many numbers from the first on, up to a refusal.
    fn begin(&mut self, first: u16, count: u16) -> Result<u16, Refusal> {
        for i in 0..count {
            self.lent.set.glyph(first.wrapping_add(i))?;
        }
        Ok(count)
    }

    // The words FIRST COUNT.
    fn begin_glyphs(&mut self) -> anyhow::Result<()> {
        let first = parsed::<u16>(&mut self.words)?;
        let count = parsed::<u16>(&mut self.words)?;
        let answer = self.begin(first, count);
        write!(self.out, " | begun")?;
        show_calls(self.out, answer)?;
        Ok(())
    }

    // The words COUNT PEAK STEP TENTS, bounds and deltas: so many variations, each with as many tents; the peak is the
    // same on every axis, and a step further in every variation. They are added up to a refusal.
    fn add_variations(&mut self) -> anyhow::Result<()> {
        let count = parsed::<u16>(&mut self.words)?;
        let peak = parsed::<i16>(&mut self.words)?;
        let step = parsed::<i16>(&mut self.words)?;
        let axes = parsed::<usize>(&mut self.words)?;
        let bounds = read_bounds(&mut self.words)?;
        let deltas = read_deltas(self.alloc, &mut self.words)?;
        // where no variation is added no tents are made
        let axes = if count == 0 { 0 } else { axes };
        let mut tents = vec![in self.alloc; Tent { peak, bounds }; axes]?;
        let answer = self.add(count, step, tents.as_mut_slice(), deltas.as_slice());
        write!(self.out, " | added")?;
        show_calls(self.out, answer)?;
        Ok(())
    }

    // So many variations up to a refusal, the peaks a step further after each.
    fn add(
        &mut self,
        count: u16,
        step: i16,
        tents: &mut [Tent],
        deltas: &[GlyphDelta],
    ) -> Result<u16, Refusal> {
        for _ in 0..count {
            self.lent.set.variation(&*tents, deltas)?;
            for tent in tents.iter_mut() {
                tent.peak = tent.peak.wrapping_add(step);
            }
        }
        Ok(count)
    }
}

// The words LEAST MOST, or `none` for no bounds.
fn read_bounds(words: &mut SplitWhitespace<'_>) -> anyhow::Result<Option<Bounds>> {
    match words.next().unwrap_or("") {
        "none" => Ok(None),
        min => Ok(Some(Bounds {
            min: min.parse::<i16>()?,
            max: parsed::<i16>(words)?,
        })),
    }
}

// The words PARTS, and for each part COUNT X Y and `required` or `optional`.
fn read_deltas(alloc: Global, words: &mut SplitWhitespace<'_>) -> anyhow::Result<Vec<GlyphDelta>> {
    let mut deltas = Vec::new(alloc);
    for _ in 0..parsed::<usize>(words)? {
        let count = parsed::<usize>(words)?;
        let x = parsed::<i16>(words)?;
        let y = parsed::<i16>(words)?;
        let required = words.next() == Some("required");
        for _ in 0..count {
            deltas.push(GlyphDelta { x, y, required })?;
        }
    }
    Ok(deltas)
}
