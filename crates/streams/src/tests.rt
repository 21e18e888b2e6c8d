// Streams worked by hand, and each fault at its edge.
use super::deltas::{DeltaCursor, past_deltas};
use super::fault::StreamFault;
use super::points::{PointCount, PointCursor, PointSet, past_points, read_count};
use std::test::Fail;

// Fails with this reason unless the test holds.
fn check(holds: bool, why: &'static str) -> Result<(), Fail> {
    if holds { Ok(()) } else { Err(Fail::new(why)) }
}

// The deltas of the whole table are these.
fn gives_deltas(table: &[u8], count: u16, want: &[i16]) -> Result<(), Fail> {
    let mut cursor = DeltaCursor::new(table, 0, count);
    for v in want {
        check(cursor.next()? == Some(*v), "another delta")?;
    }
    check(cursor.next()? == None, "a delta too many")?;
    check(cursor.place() == table.len(), "another place")
}

// The points below p of the whole table are these.
fn gives_points(table: &[u8], p: u16, want: &[u16]) -> Result<(), Fail> {
    let head = read_count(table, 0)?;
    let mut cursor = PointCursor::new(table, head.past, p, head.count);
    for q in want {
        check(cursor.next()? == Some(*q), "another point")?;
    }
    check(cursor.next()? == None, "a point too many")?;
    let set = PointSet {
        size: head.count,
        past: table.len(),
    };
    check(past_points(table, 0, p) == Ok(set), "another set")
}

// A stream of so many deltas, or of points below that number, and the place of its fault.
#[derive(Clone, Copy)]
struct Case<'a>(&'a [u8], u16, usize);

#[test]
fn deltas_are_read() -> Result<(), Fail> {
    gives_deltas(&[0x02, 0x01, 0x00, 0x02], 3, &[1, 0, 2])?;
    gives_deltas(&[0x00, 0x01, 0x81, 0x00, 0x02], 4, &[1, 0, 0, 2])?;
    gives_deltas(
        &[0x42, 0x01, 0x2C, 0x00, 0x01, 0x01, 0x2C],
        3,
        &[300, 1, 300],
    )?;
    gives_deltas(&[0x00, 0x80], 1, &[-128])?;
    gives_deltas(&[0x40, 0xFF, 0x7F], 1, &[-129])?;
    gives_deltas(&[0xBF, 0x80], 65, &[0; 65])
}

#[test]
fn deltas_at_fault(rt: HostRuntime) {
    let cases = [
        Case(&[], 1, 0),
        Case(&[0xC0], 1, 0),
        Case(&[0x01, 5, 5], 1, 0),
        Case(&[0x00, 5, 0x01, 5], 3, 2),
        Case(&[0x80, 0x40, 5], 2, 1),
    ];
    for case in &cases {
        assert_eq!(rt;
            past_deltas(case.0, 0, case.1),
            Err(StreamFault::Deltas(case.2))
        );
    }
    assert_eq!(rt; past_deltas(&[0xFF, 0x01, 5, 5], 1, 2), Ok(4));
}

#[test]
fn points_are_read(rt: HostRuntime) -> Result<(), Fail> {
    gives_points(&[0x01, 0x00, 0xFF], 256, &[255])?;
    gives_points(&[0x01, 0x80, 0x01, 0x00], 257, &[256])?;
    gives_points(&[0x02, 0x00, 0x02, 0x80, 0x01, 0x2A], 301, &[2, 300])?;
    gives_points(&[0x80, 0x01, 0x00, 0x00], 1, &[0])?;
    assert_eq!(rt;
        past_points(&[0x00], 0, 7),
        Ok(PointSet { size: 7, past: 1 })
    );
    Ok(())
}

#[test]
fn points_at_fault(rt: HostRuntime) {
    let cases = [
        Case(&[], 9, 0),
        Case(&[0x80], 9, 0),
        Case(&[0x80, 0x00], 9, 0),
        Case(&[0x01], 9, 1),
        Case(&[0x01, 0x01, 3, 3], 9, 1),
        Case(&[0x02, 0x01, 3], 9, 1),
        Case(&[0x02, 0x00, 3, 0x80, 0], 9, 3),
        Case(&[0x02, 0x01, 3, 0], 9, 1),
        Case(&[0x01, 0x00, 9], 9, 1),
    ];
    for case in &cases {
        assert_eq!(rt;
            past_points(case.0, 0, case.1),
            Err(StreamFault::Points(case.2))
        );
    }
    assert_eq!(rt;
        read_count(&[0x00, 0x81, 0x02], 1),
        Ok(PointCount {
            count: 258,
            past: 3,
        })
    );
}

// A fault comes after the values before it, and again at each call.
#[test]
fn a_fault_stays(rt: HostRuntime) -> Result<(), Fail> {
    let fault = StreamFault::Deltas(0);
    let mut deltas = DeltaCursor::new(&[0x01, 5], 0, 2);
    assert_eq!(rt; deltas.next()?, Some(5));
    assert_eq!(rt; deltas.next(), Err(fault));
    assert_eq!(rt; deltas.next(), Err(fault));
    assert_eq!(rt; fault.number(), 23);
    assert_eq!(rt; StreamFault::Points(4).number(), 22);
    assert_eq!(rt; StreamFault::Points(4).place(), 4);
    Ok(())
}
