// Switches, names, cues and a record of what was issued.
use host::{Cue, Host, Name, Nowhere, Recorder, Switch};
use map::Map;

fn name_of(bytes: &[u8]) -> Name {
    let mut name = Name::new();
    let _ = name.set(bytes);
    name
}

fn issue<H: Host>(
    rt: &HostRuntime,
    host: &mut H,
    environment: &str,
    command: &str,
) -> anyhow::Result<()> {
    let code = host.issue(environment.as_bytes(), command.as_bytes());
    println!(rt; "[{environment}] {command} = {code}")?;
    Ok(())
}

// A map, and behind it a cue and nowhere.
fn switches(rt: &HostRuntime) -> anyhow::Result<()> {
    let codes = [5, -7];
    let cue = Switch::new(name_of(b"CUE"), Cue::new(&codes), Nowhere);
    let mut host = Switch::new(Name::new(), Map::new(), cue);
    for (environment, command) in [
        ("MAP", "PLACE A 1 1"),
        ("CUE", "PLACE A 1 1"),
        ("", "PLACE A 1 1"),
        ("MAP", "PLACE A 2 2"),
        ("CUE", "X"),
        ("CUE", "X"),
        ("MAP ", "TAKE A"),
        ("map", "TAKE A"),
        ("MAP", "TAKE A"),
        ("MAP", "TAKE A"),
    ] {
        issue(rt, &mut host, environment, command)?;
    }
    Ok(())
}

fn names(rt: &HostRuntime) -> anyhow::Result<()> {
    for text in ["", "A", "12345678", "123456789", "A B", "!~", "A\u{7f}"] {
        let mut name = Name::new();
        let refusal = name.set(text.as_bytes()).err();
        let answer = refusal.map_or(0, |refusal| refusal.number());
        let len = name.as_bytes().len();
        println!(rt; "name of {answer}: {len} bytes")?;
    }
    Ok(())
}

fn records(rt: &HostRuntime) -> anyhow::Result<()> {
    let codes = [4];
    let mut host = Recorder::new(rt.alloc(), Cue::new(&codes));
    issue(rt, &mut host, "E", "FIRST")?;
    issue(rt, &mut host, "", "SECOND")?;
    let complete = host.complete;
    for issued in host.issued.as_slice() {
        let environment = issued.environment.len();
        let command = issued.command.len();
        let code = issued.code;
        println!(rt; "kept: {environment} and {command} bytes, code {code}, complete {complete}")?;
    }
    Ok(())
}

// The pieces that a map tells.
fn squares(rt: &HostRuntime) -> anyhow::Result<()> {
    let mut map = Map::new();
    issue(rt, &mut map, "ANY", "PLACE KING 12 1")?;
    for (row, column) in [(12, 1), (1, 12), (0, 1), (13, 1), (-12, 1)] {
        match map.piece_at(row, column) {
            Some(name) => {
                let len = name.len();
                println!(rt; "on {row} {column}: a name of {len} bytes")?;
            }
            None => println!(rt; "on {row} {column}: none")?,
        }
    }
    Ok(())
}

pub fn show(rt: &HostRuntime) -> anyhow::Result<()> {
    switches(rt)?;
    names(rt)?;
    records(rt)?;
    squares(rt)
}
