//! What words ask for, and which are refused.

use command_line::{Action, Command, command_of};
use std::alloc::{AllocError, Global};
use std::test::Fail;

/// The words, the program's name first.
fn words_of(alloc: Global, texts: &[&str]) -> Result<Vec<String>, AllocError> {
    let mut words = Vec::new(alloc);
    words.push(String::from_str(alloc, "stework")?)?;
    for text in texts {
        words.push(String::from_str(alloc, text)?)?;
    }
    Ok(words)
}

/// What a command asks for, as text.
fn shown(alloc: Global, found: &Option<Command<'_>>) -> Result<String, AllocError> {
    match found {
        None => String::from_str(alloc, "usage"),
        Some(command) => {
            let what = match &command.action {
                Action::Check { net, tasks } => format!(in alloc; "check {net} {tasks}")?,
                Action::Info { net } => format!(in alloc; "info {net}")?,
                Action::Sim { net, inputs } => format!(in alloc; "sim {net} {inputs}")?,
                Action::Bench { stages } => format!(in alloc; "bench {stages}")?,
            };
            let what = what.as_str();
            let steps = command.steps.unwrap_or(0);
            let flags = match (command.wave, command.nodes) {
                (true, true) => " wave nodes",
                (true, false) => " wave",
                (false, true) => " nodes",
                (false, false) => "",
            };
            format!(in alloc;
                "{what}: {} {steps} {}{flags}",
                command.workers, command.cubes
            )
        }
    }
}

/// Words, and what they ask for: the action, then the workers, the steps (0: not given), the cubes
/// and the flags.
const COMMANDS: &[(&[&str], &str)] = &[
    (&["check", "n.blif", "t.ste"], "check n.blif t.ste: 4 0 8"),
    (&["info", "n.blif"], "info n.blif: 4 0 8"),
    (&["sim", "n.blif", "i.txt"], "sim n.blif i.txt: 4 0 8"),
    (&["bench", "2"], "bench 2: 4 0 8"),
    (&["bench", "1"], "bench 1: 4 0 8"),
    (&["bench", "1000"], "bench 1000: 4 0 8"),
    (&["--wave", "check", "n", "t"], "check n t: 4 0 8 wave"),
    (&["check", "--nodes", "n", "t"], "check n t: 4 0 8 nodes"),
    (
        &["check", "n.blif", "--wave", "t.ste"],
        "check n.blif t.ste: 4 0 8 wave",
    ),
    (
        &["check", "n", "--workers", "2", "t", "--nodes", "--wave"],
        "check n t: 2 0 8 wave nodes",
    ),
    (&["check", "n", "t", "--workers=4"], "check n t: 4 0 8"),
    (
        &["check", "n", "t", "--workers=1", "--cubes", "64"],
        "check n t: 1 0 64",
    ),
    (
        &["check", "n", "t", "--workers", "64", "--cubes=1"],
        "check n t: 64 0 1",
    ),
    (
        &["check", "n", "t", "--steps", "16000000"],
        "check n t: 4 16000000 8",
    ),
    (&["check", "n", "t", "--steps", "1"], "check n t: 4 1 8"),
    (&["info", "n", "--steps", "14"], "info n: 4 14 8"),
    (&["check", "--", "n", "t"], "check n t: 4 0 8"),
    (&["check", "n", "--", "--wave"], "check n --wave: 4 0 8"),
    (&["check", "n", "-"], "check n -: 4 0 8"),
    (&["info", ""], "info : 4 0 8"),
];

/// Words that ask for no command.
const REFUSED: &[&[&str]] = &[
    &[],
    &["check"],
    &["check", "n.blif"],
    &["check", "n.blif", "t.ste", "u.ste"],
    &["check", "n.blif", "--wave", "t.ste", "u.ste"],
    &["info"],
    &["info", "n", "t"],
    &["info", "n", "--workers", "0"],
    &["sim", "n"],
    &["sim", "n", "i", "j"],
    &["bench"],
    &["bench", "1001"],
    &["bench", "0"],
    &["bench", "x"],
    &["bench", "04"],
    &["bench", "+4"],
    &["bench", ""],
    &["bench", "2", "3"],
    &["bench", "18446744073709551617"],
    &["--help"],
    &["-h"],
    &["help"],
    &["check", "n", "t", "--help"],
    &["check", "n", "t", "--version"],
    &["check", "n", "t", "--unknown"],
    &["check", "n", "t", "-w"],
    &["Check", "n", "t"],
    &["check", "n", "t", "--workers", "0"],
    &["check", "n", "t", "--workers", "65"],
    &["check", "n", "t", "--workers", "04"],
    &["check", "n", "t", "--workers", "+4"],
    &["check", "n", "t", "--workers", "-1"],
    &["check", "n", "t", "--workers=-1"],
    &["check", "n", "t", "--workers", "4x"],
    &["check", "n", "t", "--workers="],
    &["check", "n", "t", "--workers"],
    &["check", "n", "t", "--workers", "2", "--workers", "2"],
    &["check", "n", "t", "--cubes", "0"],
    &["check", "n", "t", "--cubes", "65"],
    &["check", "n", "t", "--steps", "0"],
    &["check", "n", "t", "--steps", "16000001"],
    &["check", "n", "t", "--wave=true"],
    &["check", "n", "t", "--wave", "--wave"],
];

#[test]
fn what_words_ask_for(rt: HostRuntime) -> Result<(), Fail> {
    for (texts, want) in COMMANDS {
        let words = words_of(rt.alloc(), texts)?;
        let found = command_of(rt.alloc(), words.as_slice())?;
        let told = shown(rt.alloc(), &found)?;
        assert_eq!(rt; told.as_str(), *want);
    }
    Ok(())
}

#[test]
fn words_that_are_refused(rt: HostRuntime) -> Result<(), Fail> {
    for texts in REFUSED {
        let words = words_of(rt.alloc(), texts)?;
        let found = command_of(rt.alloc(), words.as_slice())?;
        assert!(rt; found.is_none(), "at {texts:?}");
    }
    let none = Vec::<String>::new(rt.alloc());
    assert!(rt; command_of(rt.alloc(), none.as_slice())?.is_none());
    Ok(())
}
