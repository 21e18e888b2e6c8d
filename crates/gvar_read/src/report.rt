// What is printed of a table and of its glyphs, and the status that the program ends with.
use printed::glyph::GlyphLines;
use reader::fault::Fault;
use reader::table::Table;
use std::io;
use std::io::{BufWriter, Stdout, Write};
use std::process::ExitCode;

#[derive(Drop)]
pub struct Report {
    out: BufWriter<Stdout>,
    // a failure as soon as something is refused
    status: ExitCode,
}

impl Report {
    pub fn new(out: BufWriter<Stdout>) -> Report {
        Report {
            out,
            status: ExitCode::SUCCESS,
        }
    }

    pub fn refused(&mut self, fault: Fault) -> io::Result<()> {
        self.status = ExitCode::FAILURE;
        writeln!(self.out, "{fault}")
    }

    // The head of the table.
    pub fn table(&mut self, table: Table<'_>) -> io::Result<()> {
        let offsets = if table.is_long() { "long" } else { "short" };
        writeln!(
            self.out,
            "table axes {} peaks {} glyphs {} {offsets}",
            table.axes(),
            table.peak_count(),
            table.glyph_count()
        )
    }

    // The glyph with its entries, or why it is refused.
    pub fn glyph(&mut self, table: Table<'_>, glyph: u16, points: u16) -> io::Result<()> {
        match table.slot(glyph, points) {
            Ok(slot) => write!(
                self.out,
                "{}",
                GlyphLines {
                    glyph,
                    points,
                    slot
                }
            ),
            Err(fault) => self.refused(fault),
        }
    }

    pub fn finish(self) -> io::Result<ExitCode> {
        let Report { mut out, status } = self;
        out.flush()?;
        Ok(status)
    }
}
