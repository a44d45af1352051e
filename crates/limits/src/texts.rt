// A text at 255 bytes, and words at blanks.
use text::{Text, next_word};

fn fits(ok: bool) -> &'static str {
    if ok { "taken" } else { "refused" }
}

fn lengths(rt: &HostRuntime) -> anyhow::Result<()> {
    for n in [0, 254, 255, 256] {
        let bytes = vec![in rt.alloc(); b'x'; n]?;
        let mut text = Text::new();
        let set = fits(text.set(bytes.as_slice()).is_ok());
        let held = text.as_slice().len();
        let pushed = fits(text.push(b'y').is_ok());
        let appended = fits(text.append(b"zz").is_ok());
        let end = text.as_slice().len();
        println!(rt;
            "text of {n} bytes: {set}, holds {held}; one byte more: {pushed}; two more: {appended}; holds {end}"
        )?;
    }
    Ok(())
}

fn words(rt: &HostRuntime, line: &str) -> anyhow::Result<()> {
    let mut rest = line.as_bytes();
    let mut count = 0usize;
    // It shows the call that cuts words, so it follows what is left by hand.
    while let Some((word, after)) = next_word(rest) {
        count += 1;
        let len = word.len();
        println!(rt; "word {count} of [{line}] has {len} bytes")?;
        rest = after;
    }
    println!(rt; "[{line}] has {count} words")?;
    Ok(())
}

pub fn show(rt: &HostRuntime) -> anyhow::Result<()> {
    lengths(rt)?;
    for line in ["", " ", "A", "  A  BC ", "&IF &X = 1"] {
        words(rt, line)?;
    }
    Ok(())
}
