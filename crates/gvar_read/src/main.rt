// Prints what a table says of one glyph, or of all.
#![tactic(auto)]

mod report;
mod request;

use anyhow::{Context, ensure};
use reader::fault::Fault;
use reader::table::Table;
use report::Report;
use request::{Glyphs, Request};
use std::io::BufWriter;
use std::process::ExitCode;

// The glyphs one after another, each with its number of points.
fn show_all(report: &mut Report, table: Table<'_>, counts: &str) -> anyhow::Result<()> {
    let mut words = counts.split_whitespace();
    for glyph in 0..table.glyph_count() {
        let word = words
            .next()
            .context("there are fewer point counts than glyphs")?;
        report.glyph(table, glyph, word.parse::<u16>()?)?;
    }
    ensure!(
        words.next().is_none(),
        "there are more point counts than glyphs"
    );
    Ok(())
}

fn answer(report: &mut Report, request: &Request) -> anyhow::Result<()> {
    let table = match Table::check(request.bytes.as_slice()) {
        Ok(table) => table,
        Err(fault) => return Ok(report.refused(Fault::from(fault))?),
    };
    report.table(table)?;
    match &request.glyphs {
        Glyphs::None => Ok(()),
        Glyphs::One { glyph, points } => Ok(report.glyph(table, *glyph, *points)?),
        Glyphs::All(counts) => show_all(report, table, counts.as_str()),
    }
}

fn run(rt: &HostRuntime) -> anyhow::Result<ExitCode> {
    let request = Request::read(rt)?;
    let mut report = Report::new(BufWriter::new(rt.alloc(), rt.stdout())?);
    answer(&mut report, &request)?;
    Ok(report.finish()?)
}

fn main(rt: HostRuntime) -> anyhow::Result<ExitCode> {
    run(&rt)
}
