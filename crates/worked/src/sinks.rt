// The sinks where the allowance just suffices, and where it does not.
use write::buffer::Buffer;
use write::checksum::Checksum;
use write::counter::Counter;
use write::sink::Sink;

// Whether the sink takes the bytes, and its allowance afterwards.
fn tried<S: Sink>(rt: &HostRuntime, sink: &mut S, bytes: &[u8]) -> anyhow::Result<()> {
    let n = bytes.len();
    let answer = if sink.take(bytes).is_ok() {
        "taken"
    } else {
        "refused"
    };
    let left = sink.allowance();
    println!(rt; "{n} bytes {answer}, {left} left")?;
    Ok(())
}

pub fn try_sinks(rt: &HostRuntime) -> anyhow::Result<()> {
    let mut memory = [0xEE; 5];
    let mut buffer = Buffer::new(&mut memory);
    tried(rt, &mut buffer, &[1, 2, 3])?;
    tried(rt, &mut buffer, &[4, 5, 6])?;
    tried(rt, &mut buffer, &[])?;
    tried(rt, &mut buffer, &[7, 8])?;
    tried(rt, &mut buffer, &[9])?;
    let taken = buffer.taken();
    println!(rt; "buffer {taken:?}")?;
    let mut counter = Counter::new(4);
    tried(rt, &mut counter, &[1, 2, 3, 4, 5])?;
    tried(rt, &mut counter, &[1, 2, 3, 4])?;
    let n = counter.count();
    println!(rt; "counter {n}")?;
    let mut checksum = Checksum::new(9);
    tried(rt, &mut checksum, &[0xFF, 0xFF, 0xFF])?;
    tried(rt, &mut checksum, &[0xFF, 0, 0])?;
    tried(rt, &mut checksum, &[1, 2, 3])?;
    tried(rt, &mut checksum, &[4])?;
    let sum = checksum.sum();
    println!(rt; "checksum {sum:08X}")?;
    Ok(())
}
