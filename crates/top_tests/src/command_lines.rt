use cli_words::{Command, Settings, WordsFault, settings};
use std::test::Fail;

fn read(rt: HostRuntime, line: &str) -> Result<Settings, WordsFault> {
    let alloc = rt.alloc();
    let mut words = Vec::new(alloc);
    for word in line.split_whitespace() {
        words.push(String::from_str(alloc, word)?)?;
    }
    settings(alloc, words.as_slice())
}

/// Command lines that are refused.
const REFUSED: &str = "\
surveyor
surveyor alone
surveyor alone --rounds 0 t.c
surveyor alone --rounds 201 t.c
surveyor alone --rounds +3 t.c
surveyor alone --rounds 3 --rounds 4 t.c
surveyor alone -x t.c
surveyor alone --db x --book x t.c
surveyor alone --workers 4 t.c
surveyor check --workers 65 t.c
surveyor trial 1 0
surveyor trial 1
surveyor run --entry main,tick --calls 2 t.c
surveyor run --calls 0, t.c
surveyor audit t.c
surveyor help
surveyor --version";

#[test]
fn refuses_words(rt: HostRuntime) -> Result<(), Fail> {
    for line in REFUSED.split('\n') {
        assert_eq!(rt; read(rt, line).err(), Some(WordsFault::Bad), "at {line}");
    }
    Ok(())
}

#[test]
fn counts_files(rt: HostRuntime) -> Result<(), Fail> {
    let mut line = String::from_str(rt.alloc(), "surveyor alone")?;
    for _ in 0..256 {
        line.push_str(" t.c")?;
    }
    assert_eq!(rt; read(rt, line.as_str())?.files.len(), 256);
    line.push_str(" t.c")?;
    assert_eq!(rt; read(rt, line.as_str()).err(), Some(WordsFault::Bad));
    Ok(())
}

#[test]
fn reads_words(rt: HostRuntime) -> Result<(), Fail> {
    let alone = read(rt, "surveyor alone --rounds=24 t.c u.c")?;
    assert_eq!(rt; alone.command, Command::Alone);
    assert_eq!(rt; alone.entry.as_str(), "main");
    assert_eq!(rt; alone.rounds, 24);
    assert_eq!(rt; alone.path.as_str(), "");
    assert_eq!(rt; alone.files.len(), 2);

    let check = read(
        rt,
        "surveyor check --entry main,tick --workers 8 --db x t.c",
    )?;
    assert_eq!(rt; check.command, Command::Check);
    assert_eq!(rt; check.entry.as_str(), "main,tick");
    assert_eq!(rt; check.workers, 8);
    assert_eq!(rt; check.path.as_str(), "x");
    assert_eq!(rt; check.files.len(), 1);

    let run = read(rt, "surveyor run --entry main,tick --calls 1,0,1 t.c")?;
    assert_eq!(rt; run.command, Command::Run);
    assert_eq!(rt; run.bound, 1000);
    assert_eq!(rt; run.calls.as_slice(), [1, 0, 1].as_slice());

    let trial = read(rt, "surveyor trial 4294967295 2000")?;
    assert_eq!(rt; trial.command, Command::Trial);
    assert_eq!(rt; (trial.number, trial.functions), (4_294_967_295, 2000));
    Ok(())
}
