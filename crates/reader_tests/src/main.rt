// Reads tables, and cases of damage to them, from standard input, and prints the reader's answer to each case.
#![tactic(auto)]

mod answer;
mod case;

use answer::show_answer;
use anyhow::Context;
use case::{Case, Damage, Tables};
use std::collections::BTreeMap;
use std::io::{BufRead, BufReader, BufWriter, Stdout, Write};

// The words NAME BYTE.., of a table or of the next part of it.
fn read_table(rt: &HostRuntime, tables: &mut Tables, text: &str) -> anyhow::Result<()> {
    let alloc = rt.alloc();
    let mut words = text.split_whitespace();
    let name = words.next().context("a table has no name")?;
    let table = tables
        .entry(String::from_str(alloc, name)?)?
        .or_insert_with(|| Vec::new(alloc));
    for byte in words {
        table.push(u8::from_str_radix(byte, 16)?)?;
    }
    Ok(())
}

// Prints the case with its damage, as far as that can be read, and the answer.
fn run_case(
    rt: &HostRuntime,
    out: &mut BufWriter<Stdout>,
    tables: &Tables,
    text: &str,
) -> anyhow::Result<()> {
    let words: Vec<&str> = text.split_whitespace().collect(rt.alloc())?;
    let case = Case::of(words.as_slice())?;
    let mut bytes = case.bytes(rt.alloc(), tables)?;
    write!(out, "{case}")?;
    for pair in case.damage.chunks(2) {
        let damage = Damage::of(pair);
        write!(out, "{damage}")?;
        damage.put(bytes.as_mut_slice())?;
    }
    write!(out, " -> ")?;
    show_answer(out, bytes.as_slice(), case.glyph, case.points)?;
    writeln!(out, "")?;
    Ok(())
}

fn run(rt: &HostRuntime) -> anyhow::Result<()> {
    let mut tables = BTreeMap::new(rt.alloc());
    let mut out = BufWriter::new(rt.alloc(), rt.stdout())?;
    for line in BufReader::new(rt.alloc(), rt.stdin())?.lines(rt.alloc()) {
        let line = line?;
        if let Some(table) = line.as_str().strip_prefix("table ") {
            read_table(rt, &mut tables, table)?;
        }
        if let Some(case) = line.as_str().strip_prefix("case ") {
            run_case(rt, &mut out, &tables, case)?;
        }
    }
    out.flush()?;
    Ok(())
}

fn main(rt: HostRuntime) -> anyhow::Result<()> {
    run(&rt)
}
