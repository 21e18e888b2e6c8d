// What is asked for: a table, and one of its glyphs or all.
use anyhow::bail;
use std::io::Read;
use std::{env, fs};

// One axis, one glyph with one point: the table that is read where none is named.
const STORED: [u8; 40] = [
    0x00, 0x01, 0x00, 0x00, 0x00, 0x01, 0x00, 0x00, 0x00, 0x00, 0x00, 0x18, 0x00, 0x01, 0x00, 0x00,
    0x00, 0x00, 0x00, 0x18, 0x00, 0x00, 0x00, 0x08, 0x00, 0x01, 0x00, 0x0A, 0x00, 0x05, 0xA0, 0x00,
    0x40, 0x00, 0x00, 0x00, 0x0A, 0x00, 0xFD, 0x00,
];

const USAGE: &str = "gvar_read [TABLE [GLYPH POINTS | all COUNTS]]";

// No glyph, one with so many points, or all with the text of their point counts.
#[derive(Drop)]
pub enum Glyphs {
    None,
    One { glyph: u16, points: u16 },
    All(String),
}

#[derive(Drop)]
pub struct Request {
    pub bytes: Vec<u8>,
    pub glyphs: Glyphs,
}

// The bytes of a file, or of standard input where its name is -.
fn read_table(rt: &HostRuntime, name: &str) -> anyhow::Result<Vec<u8>> {
    if name == "-" {
        let mut bytes = Vec::new(rt.alloc());
        rt.stdin().read_to_end(&mut bytes)?;
        return Ok(bytes);
    }
    Ok(fs::read(rt, name)?)
}

// The words that follow a table.
fn read_glyphs(rt: &HostRuntime, words: &[String]) -> anyhow::Result<Glyphs> {
    match words {
        [] => Ok(Glyphs::None),
        [all, counts] if all.as_str() == "all" => {
            Ok(Glyphs::All(fs::read_to_string(rt, counts.as_str())?))
        }
        [glyph, points] => Ok(Glyphs::One {
            glyph: glyph.parse::<u16>()?,
            points: points.parse::<u16>()?,
        }),
        _ => bail!("{USAGE}"),
    }
}

impl Request {
    // What the arguments ask for.
    pub fn read(rt: &HostRuntime) -> anyhow::Result<Request> {
        let words: Vec<String> = env::args(rt)?.skip(1).collect(rt.alloc())?;
        match words.as_slice() {
            [] => Ok(Request {
                bytes: Vec::from_slice(rt.alloc(), &STORED)?,
                glyphs: Glyphs::One {
                    glyph: 0,
                    points: 1,
                },
            }),
            [table, glyphs @ ..] => Ok(Request {
                bytes: read_table(rt, table.as_str())?,
                glyphs: read_glyphs(rt, glyphs)?,
            }),
        }
    }
}
