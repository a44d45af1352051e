// Check at each of its limits.
use console::{check, list, meaning};
use script::{Line, Script};
use std::alloc::{AllocError, Global};
use std::io::Write;

fn outcome(rt: &HostRuntime, label: &str, source: &[u8], records: usize) -> anyhow::Result<()> {
    let mut directory = vec![in rt.alloc(); Line::default(); records]?;
    let mut script = Script::new();
    match script.check(source, directory.as_mut_slice()) {
        Ok(count) => println!(rt; "{label}: {count} lines")?,
        Err(refusal) => println!(rt; "{label}: {refusal}")?,
    }
    Ok(())
}

// `&TRACE`, then a line of `n` bytes.
fn line_of(heap: Global, n: usize, byte: u8) -> Result<Vec<u8>, AllocError> {
    let mut source = Vec::from_slice(heap, b"&TRACE\n")?;
    for _ in 0..n {
        source.push(byte)?;
    }
    Ok(source)
}

// `n` lines `&TRACE`.
fn lines(heap: Global, n: usize) -> Result<Vec<u8>, AllocError> {
    let mut source = Vec::new(heap);
    for _ in 0..n {
        source.extend_from_slice(b"&TRACE\n")?;
    }
    Ok(source)
}

// `&TRACE` and lines of 255 bytes, `n` bytes in all.
fn bytes(heap: Global, n: usize) -> Result<Vec<u8>, AllocError> {
    let mut source = Vec::from_slice(heap, b"&TRACE ")?;
    for i in 7..n {
        source.push(if i % 256 == 255 { b'\n' } else { b'x' })?;
    }
    Ok(source)
}

fn fresh(rt: &HostRuntime) -> anyhow::Result<()> {
    let script = Script::new();
    let len = script.bytes().len();
    let lines = script.lines().len();
    println!(rt; "a new script has {len} bytes in {lines} lines")?;
    Ok(())
}

// A refusal leaves the script that was there, and a later Check takes its place.
fn refused(rt: &HostRuntime) -> anyhow::Result<()> {
    let mut records = [Line::default(); 8];
    let (first, second) = records.split_at_mut(4);
    let mut script = Script::new();
    let good = script.check(b"&TRACE\n&EXIT 5", first).is_ok();
    let filled = script.bytes().len();
    let bad = script.check(b"&EXIT 5", second).is_ok();
    let kept = script.bytes().len();
    println!(rt; "checked {good}, a script has {filled} bytes; checked {bad}, it has {kept}")?;
    Ok(())
}

fn lookup(rt: &HostRuntime, script: &Script, from: usize, label: &str) -> anyhow::Result<()> {
    match script.find_label(from, label.as_bytes()) {
        Some(line) => println!(rt; "label {label} after line {from}: line {line}")?,
        None => println!(rt; "label {label} after line {from}: none")?,
    }
    Ok(())
}

fn lookups(rt: &HostRuntime) -> anyhow::Result<()> {
    let mut directory = [Line {
        offset: 9,
        length: 9,
    }; 6];
    let mut script = Script::new();
    let checked = script
        .check(b"&TRACE\n-A &GOTO -A\n-B\n\n  -A", &mut directory)
        .is_ok();
    println!(rt; "five lines checked: {checked}")?;
    for line in script.lines() {
        let offset = line.offset;
        let length = line.length;
        println!(rt; "offset {offset} length {length}")?;
    }
    for number in [0, 1, 4, 5, 6] {
        match script.line(number) {
            Some(line) => {
                let len = line.len();
                println!(rt; "line {number} has {len} bytes")?;
            }
            None => println!(rt; "line {number}: none")?,
        }
    }
    for (from, label) in [
        (2, "-A"),
        (5, "-A"),
        (1, "-B"),
        (3, "-B"),
        (4, "-b"),
        (9, "-A"),
        (0, "A"),
    ] {
        lookup(rt, &script, from, label)?;
    }
    Ok(())
}

// A listing, and the text of a refusal.
fn listed(rt: &HostRuntime) -> anyhow::Result<()> {
    rt.stdout()
        .write_all(list(rt.alloc(), b"&TRACE\n\n* A B")?.text.as_slice())?;
    rt.stdout()
        .write_all(check(rt.alloc(), b"&TRACE\n\n* A B")?.text.as_slice())?;
    let refused = list(rt.alloc(), b"&TRACE\n\t")?;
    rt.stdout().write_all(refused.text.as_slice())?;
    if let Some(refusal) = refused.refusal {
        let meaning = meaning(refusal);
        println!(rt; "{meaning}")?;
    }
    Ok(())
}

pub fn show(rt: &HostRuntime) -> anyhow::Result<()> {
    let heap = rt.alloc();
    for n in [0, 1, 254, 255, 256] {
        let label = format!(in heap; "line of {n} bytes")?;
        outcome(rt, label.as_str(), line_of(heap, n, b'x')?.as_slice(), 1024)?;
    }
    for n in [1023, 1024, 1025] {
        let label = format!(in heap; "{n} lines")?;
        outcome(rt, label.as_str(), lines(heap, n)?.as_slice(), 1100)?;
    }
    for n in [65535, 65536] {
        let label = format!(in heap; "{n} bytes")?;
        outcome(rt, label.as_str(), bytes(heap, n)?.as_slice(), 1024)?;
    }
    for byte in [9u8, 10, 31, 32, 126, 127, 255] {
        let label = format!(in heap; "byte {byte}")?;
        outcome(rt, label.as_str(), line_of(heap, 1, byte)?.as_slice(), 1024)?;
    }
    for records in [2, 3] {
        let label = format!(in heap; "3 lines and {records} records")?;
        outcome(rt, label.as_str(), lines(heap, 3)?.as_slice(), records)?;
    }
    outcome(rt, "no byte and no record", b"", 0)?;
    outcome(rt, "one byte 10", b"\n", 1024)?;
    outcome(rt, "blanks before &TRACE", b"  &TRACE OFF", 1024)?;
    outcome(rt, "&TRACER", b"&TRACER\n", 1024)?;
    let mut source = line_of(heap, 256, b'x')?;
    source.extend_from_slice(b"\n\t")?;
    outcome(
        rt,
        "a long line 2 and a byte not allowed in line 3",
        source.as_slice(),
        1,
    )?;
    fresh(rt)?;
    refused(rt)?;
    lookups(rt)?;
    listed(rt)
}
