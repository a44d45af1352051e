// Numeric words and their order.
use std::cmp::Ordering;
use text::{Text, compare_words, number};

fn read(rt: &HostRuntime, word: &str) -> anyhow::Result<()> {
    match number(word.as_bytes()) {
        Some(z) => println!(rt; "number [{word}]: {z}")?,
        None => println!(rt; "number [{word}]: none")?,
    }
    Ok(())
}

// A run of zeros and then `last`, `len` bytes in all.
fn read_long(rt: &HostRuntime, len: usize, last: u8) -> anyhow::Result<()> {
    let mut word = vec![in rt.alloc(); b'0'; len]?;
    word.push(last)?;
    match number(word.as_slice()) {
        Some(z) => println!(rt; "number of {len} zeros and one digit more: {z}")?,
        None => println!(rt; "number of {len} zeros and one digit more: none")?,
    }
    Ok(())
}

fn write(rt: &HostRuntime, z: i32) -> anyhow::Result<()> {
    let text = Text::from_number(z);
    let len = text.as_slice().len();
    let back = number(text.as_slice()) == Some(z);
    println!(rt; "written {z}: {len} bytes, read back: {back}")?;
    Ok(())
}

fn compare(rt: &HostRuntime, v: &str, w: &str) -> anyhow::Result<()> {
    let order = match compare_words(v.as_bytes(), w.as_bytes()) {
        Ordering::Less => "less",
        Ordering::Equal => "equal",
        Ordering::Greater => "greater",
    };
    println!(rt; "compare [{v}] [{w}]: {order}")?;
    Ok(())
}

pub fn show(rt: &HostRuntime) -> anyhow::Result<()> {
    for word in [
        "", "+", "-", "0", "-0", "+7", "007", "1.", "--1", "1-", "+-1", " 1",
    ] {
        read(rt, word)?;
    }
    for word in [
        "2147483647",
        "2147483648",
        "-2147483648",
        "-2147483649",
        "+2147483647",
        "9999999999999999999999",
    ] {
        read(rt, word)?;
    }
    read_long(rt, 254, b'7')?;
    read_long(rt, 254, b'A')?;
    for z in [0, 9, 10, -1, 2147483647, -2147483648] {
        write(rt, z)?;
    }
    for (v, w) in [
        ("000", "0"),
        ("1.", "1"),
        ("-0", "0"),
        ("9", "10"),
        ("9A", "10A"),
        ("A", "A  "),
        ("A", "A!"),
        ("", " "),
        ("", "0"),
        ("B", "AZ"),
    ] {
        compare(rt, v, w)?;
    }
    compare(rt, "2147483648", "2147483647")?;
    compare(rt, "10000000000", "9")
}
