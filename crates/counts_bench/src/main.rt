// Times the count table on the peaks of two axes: filling it, ranking its classes, and reading all ranks.
#![tactic(auto)]

use counts::cells::CountCell;
use counts::peaks::Peaks;
use counts::table::CountTable;
use std::alloc::{AllocError, Global};
use std::io;
use std::time::Instant;

const AXES: usize = 2;

// The peak of each of n variations, as many of them different as `kinds` says.
fn values(alloc: Global, n: usize, kinds: usize) -> Result<Vec<i16>, AllocError> {
    let kinds = kinds.max(1);
    let mut values = Vec::new(alloc);
    for i in 0..n {
        let kind = i.wrapping_mul(7919) % kinds;
        let low = (kind % 16384) as i16;
        let high = (kind / 16384 % 16384) as i16;
        values.extend_from_slice(&[low, high, 0, 0, 0, 0])?;
    }
    Ok(values)
}

// The sum of all ranks.
fn sum(table: &CountTable, n: usize) -> usize {
    (0..n)
        .filter_map(|i| table.rank_of(i))
        .fold(0, |sum: usize, rank| sum.wrapping_add(rank))
}

fn measure(rt: &HostRuntime, n: usize, kinds: usize) -> io::Result<()> {
    let values = values(rt.alloc(), n, kinds)?;
    let mut cells = vec![in rt.alloc(); CountCell::zeros(); n]?;
    let peaks = Peaks::over(values.as_slice(), AXES, n);
    let mut table = CountTable::over(cells.as_mut_slice());
    let start = Instant::now(rt)?;
    let filled = table.fill(&peaks).is_ok();
    let fill = start.elapsed(rt)?.as_micros();
    let start = Instant::now(rt)?;
    let classes = table.rank(&peaks);
    let rank = start.elapsed(rt)?.as_micros();
    let start = Instant::now(rt)?;
    let sum = sum(&table, n);
    let read = start.elapsed(rt)?.as_micros();
    println!(rt; "{n} items, {classes} classes, filled {filled}, ranks sum {sum}")?;
    eprintln!(rt;
        "{n} items, {classes} classes: fill {fill} us, rank {rank} us, read ranks {read} us"
    )
}

fn main(rt: HostRuntime) -> io::Result<()> {
    for n in [1000, 10000, 100000] {
        measure(&rt, n, 10)?;
        measure(&rt, n, n)?;
    }
    Ok(())
}
