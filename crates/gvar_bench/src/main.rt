// Times how sets are filled and compiled to a buffer, at two sizes each. The sizes are small ones; with the argument
// `full`, those of a large font. The times go to standard error.
#![tactic(auto)]

use anyhow::bail;
use gvar::compile::compile;
use lent::memory::{Memory, Opened, Sizes};
use sets::axis::AxisCount;
use sets::refusal::Refusal;
use sets::set::Set;
use std::alloc::{AllocError, Global};
use std::env;
use std::time::Instant;
use tents::tent::Tent;
use variations::delta::GlyphDelta;
use write::buffer::Buffer;

const AXES: usize = 4;

const POOL: usize = 5120;

const ROUNDS: u32 = 3;

// How many glyphs, variations of each, and points of each variation.
#[derive(Clone, Copy)]
struct Shape {
    glyphs: u16,
    variations: u16,
    points: u16,
}

// How many deltas, and the best times in nanoseconds.
#[derive(Clone, Copy)]
struct Times {
    deltas: u128,
    fill: u128,
    compile: u128,
}

fn mixed(seed: u32) -> u32 {
    seed.wrapping_mul(1664525).wrapping_add(1013904223)
}

// A value from -100 to 99.
fn value(seed: u32) -> i16 {
    (seed / 256 % 200) as i16 - 100
}

// The deltas that all variations take theirs from; one in four is required.
fn pool(alloc: Global) -> Result<Vec<GlyphDelta>, AllocError> {
    let mut deltas = Vec::new(alloc);
    let mut seed = 1;
    for _ in 0..2 * POOL {
        seed = mixed(seed);
        let x = value(seed);
        seed = mixed(seed);
        let y = value(seed);
        seed = mixed(seed);
        let required = seed / 65536 % 4 == 0;
        deltas.push(GlyphDelta { x, y, required })?;
    }
    Ok(deltas)
}

// As many cells as the shape uses, and as many bytes as its table takes at most.
fn make_memory(alloc: Global, shape: Shape) -> Result<(Memory, Vec<u8>), AllocError> {
    let glyphs = shape.glyphs as usize;
    let variations = glyphs * shape.variations as usize;
    let deltas = variations * shape.points as usize;
    let memory = Memory::blank(
        alloc,
        Sizes {
            glyphs,
            variations,
            values: variations * (3 * AXES),
            deltas,
            counts: variations,
        },
    )?;
    let bytes = vec![in alloc; 0; deltas * 3 + variations * 16 + glyphs * 8 + 1000]?;
    Ok((memory, bytes))
}

// The peak of variation v on an axis: the axes take turns, up and then down, and every eighth has a peak of its glyph's own.
fn peak(g: u16, v: u16, axis: u16) -> i16 {
    if v % 4 != axis {
        return 0;
    }
    if v % 8 == 7 {
        return (g % 1024) as i16;
    }
    if v % 8 < 4 { 16384 } else { -16384 }
}

fn tent(peak: i16) -> Tent {
    Tent { peak, bounds: None }
}

// Begins all glyphs and adds all variations.
fn fill(set: &mut Set<'_>, shape: Shape, pool: &[GlyphDelta]) -> Result<(), Refusal> {
    let points = shape.points as usize;
    for g in 0..shape.glyphs {
        set.glyph(g)?;
        for v in 0..shape.variations {
            let tents = [0, 1, 2, 3].map(|axis| tent(peak(g, v, axis)));
            let k = (g as usize * 31 + v as usize * 997) % POOL;
            if let Some(deltas) = pool.get(k..k + points) {
                set.variation(&tents, deltas)?;
            }
        }
    }
    Ok(())
}

// The best times of some rounds.
fn measure(rt: &HostRuntime, shape: Shape, pool: &[GlyphDelta]) -> anyhow::Result<Times> {
    let (mut memory, mut bytes) = make_memory(rt.alloc(), shape)?;
    let deltas = memory.deltas.len() as u128;
    let mut best = Times {
        deltas,
        fill: u128::MAX,
        compile: u128::MAX,
    };
    let mut length = 0;
    for _ in 0..ROUNDS {
        let Ok(axes) = AxisCount::new(AXES as u16) else {
            bail!("too many axes");
        };
        let start = Instant::now(rt)?;
        let Opened { mut set, counts } = memory.open(axes);
        if fill(&mut set, shape, pool).is_err() {
            bail!("a call was refused");
        }
        best.fill = best.fill.min(start.elapsed(rt)?.as_nanos());
        let mut buffer = Buffer::new(bytes.as_mut_slice());
        let start = Instant::now(rt)?;
        let Ok(n) = compile(&set, counts, &mut buffer) else {
            bail!("the compile was refused");
        };
        best.compile = best.compile.min(start.elapsed(rt)?.as_nanos());
        length = n;
    }
    report(rt, shape, best, length)?;
    Ok(best)
}

// The sizes go to standard output, the times to standard error.
fn report(rt: &HostRuntime, shape: Shape, best: Times, length: usize) -> anyhow::Result<()> {
    let Shape {
        glyphs,
        variations,
        points,
    } = shape;
    let Times {
        deltas,
        fill,
        compile,
    } = best;
    println!(rt;
        "{glyphs} glyphs of {variations} variations of {points} points: a table of {length} bytes"
    )?;
    let each = deltas.max(1);
    let filling = fill / each;
    let compiling = compile / each;
    eprintln!(rt;
        "{glyphs} glyphs, {deltas} deltas: fill {fill} ns, {filling} ns a delta; compile {compile} ns, {compiling} ns a delta"
    )?;
    Ok(())
}

// Measures a shape at half the size and whole, and how much longer the whole takes, in hundredths.
fn compare(rt: &HostRuntime, shape: Shape, pool: &[GlyphDelta]) -> anyhow::Result<()> {
    let half = Shape {
        glyphs: shape.glyphs / 2,
        ..shape
    };
    let before = measure(rt, half, pool)?;
    let after = measure(rt, shape, pool)?;
    let fill = after.fill.wrapping_mul(100) / before.fill.max(1);
    let compile = after.compile.wrapping_mul(100) / before.compile.max(1);
    eprintln!(rt; "from half the size: fill {fill}/100, compile {compile}/100")?;
    Ok(())
}

fn is_full(rt: &HostRuntime) -> anyhow::Result<bool> {
    Ok(env::args(rt)?.any(|word| word.as_str() == "full"))
}

fn run(rt: &HostRuntime) -> anyhow::Result<()> {
    let full = is_full(rt)?;
    let pool = pool(rt.alloc())?;
    let large = Shape {
        glyphs: if full { 20000 } else { 1000 },
        variations: 8,
        points: 80,
    };
    compare(rt, large, pool.as_slice())?;
    let many = Shape {
        glyphs: if full { 65535 } else { 3276 },
        variations: 1,
        points: 8,
    };
    compare(rt, many, pool.as_slice())
}

fn main(rt: HostRuntime) -> anyhow::Result<()> {
    run(&rt)
}
