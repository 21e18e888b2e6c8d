// Makes a table of about a megabyte, and measures how many bytes a second are checked and walked.
// Proved by `rt run`, the program is out/reader_bench; the speeds go to standard error.
#![tactic(auto)]

use anyhow::anyhow;
use reader::fault::Fault;
use reader::slot::Slot;
use reader::table::Table;
use std::alloc::{AllocError, Global};
use std::time::Instant;

const GLYPHS: u16 = 256;

const ENTRIES: u16 = 16;

const POINTS: u16 = 128;

const ROUNDS: u32 = 8;

// The points byte, and x and y as two runs of 64 bytes each.
const DATA_SIZE: u16 = 261;

// The first words, and for each entry a header of six bytes and its data.
const SLOT_SIZE: u32 = 4276;

// What came of a walk: how many entries and moves, and the sum of all x, less that of all y.
#[derive(Clone, Copy, PartialEq, Eq, Debug, Default)]
struct Tally {
    entries: u64,
    moves: u64,
    sum: i64,
}

// One run of 64 byte values from `first` on.
fn push_run(table: &mut Vec<u8>, first: u8) -> Result<(), AllocError> {
    table.push(63)?;
    for k in 0..64u8 {
        table.push(first.wrapping_add(k))?;
    }
    Ok(())
}

// The slot of one glyph: every entry has an embedded peak, and all points.
fn push_slot(table: &mut Vec<u8>, glyph: u16) -> Result<(), AllocError> {
    table.extend_from_slice(&ENTRIES.to_be_bytes())?;
    table.extend_from_slice(&(4 + 6 * ENTRIES).to_be_bytes())?;
    for i in 0..ENTRIES {
        table.extend_from_slice(&DATA_SIZE.to_be_bytes())?;
        table.extend_from_slice(&0xA000u16.to_be_bytes())?;
        table.extend_from_slice(&i.wrapping_mul(1024).to_be_bytes())?;
    }
    for i in 0..ENTRIES {
        table.push(0)?;
        push_run(table, glyph.to_be_bytes()[1])?;
        push_run(table, i.to_be_bytes()[1])?;
        push_run(table, 1)?;
        push_run(table, 2)?;
    }
    Ok(())
}

// One axis, no shared peak, long offsets.
fn make_table(alloc: Global) -> Result<Vec<u8>, AllocError> {
    let mut table = Vec::new(alloc);
    let start = 20 + 4 * (GLYPHS as u32 + 1);
    table.extend_from_slice(&0x0001_0000u32.to_be_bytes())?;
    table.extend_from_slice(&1u16.to_be_bytes())?;
    table.extend_from_slice(&0u16.to_be_bytes())?;
    table.extend_from_slice(&start.to_be_bytes())?;
    table.extend_from_slice(&GLYPHS.to_be_bytes())?;
    table.extend_from_slice(&1u16.to_be_bytes())?;
    table.extend_from_slice(&start.to_be_bytes())?;
    for glyph in 0..GLYPHS as u32 + 1 {
        table.extend_from_slice(&glyph.wrapping_mul(SLOT_SIZE).to_be_bytes())?;
    }
    for glyph in 0..GLYPHS {
        push_slot(&mut table, glyph)?;
    }
    Ok(table)
}

impl Tally {
    // Adds the entries of a slot.
    fn add(&mut self, slot: Slot<'_>) {
        for entry in slot {
            self.entries = self.entries.wrapping_add(1);
            for m in entry.moves() {
                self.moves = self.moves.wrapping_add(1);
                self.sum = self.sum.wrapping_add(m.x as i64).wrapping_sub(m.y as i64);
            }
        }
    }
}

// Checks the table and every slot, and adds to the tally what `visit` makes of each.
fn read_table<F: Fn(&mut Tally, Slot<'_>)>(bytes: &[u8], visit: F) -> Result<Tally, Fault>
    requires { F.IsAlwaysCallable visit }
{
    let table = Table::check(bytes)?;
    let mut tally = Tally::default();
    for glyph in 0..table.glyph_count() {
        visit(&mut tally, table.slot(glyph, POINTS)?);
    }
    Ok(tally)
}

// The speed of so many rounds goes to standard error.
fn measure<F: Fn(&mut Tally, Slot<'_>) + Copy>(
    rt: &HostRuntime,
    bytes: &[u8],
    name: &str,
    visit: F,
) -> anyhow::Result<Tally>
    requires { F.IsAlwaysCallable visit }
{
    let start = Instant::now(rt)?;
    let mut last = Ok(Tally::default());
    for _ in 0..ROUNDS {
        last = read_table(bytes, visit);
    }
    let micros = start.elapsed(rt)?.as_micros();
    let all = bytes.len() as u128 * ROUNDS as u128;
    let speed = all / micros.max(1);
    eprintln!(rt; "{name}: {all} bytes in {micros} microseconds, {speed} MB/s")?;
    last.map_err(|_| anyhow!("the table was refused"))
}

fn run(rt: &HostRuntime) -> anyhow::Result<()> {
    let table = make_table(rt.alloc())?;
    let bytes = table.len();
    measure(rt, table.as_slice(), "check", |_, _| {})?;
    let Tally {
        entries,
        moves,
        sum,
    } = measure(
        rt,
        table.as_slice(),
        "check and walk",
        |tally, slot| tally.add(slot),
    )?;
    println!(rt; "{bytes} bytes, {entries} entries, {moves} moves, sum {sum}")?;
    Ok(())
}

fn main(rt: HostRuntime) -> anyhow::Result<()> {
    run(&rt)
}
