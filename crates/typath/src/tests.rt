//! What is printed, which no clause says, and one call of each kind.

use crate::words::{Asked, HELP, asked_for};
use std::test::Fail;

#[test]
fn words(rt: HostRuntime) -> Result<(), Fail> {
    let alloc = rt.alloc();
    let rows: [(&[&str], Asked); 12] = [
        (&[], Asked::Answers),
        (&["typath"], Asked::Answers),
        (&["--help"], Asked::Answers),
        (&["typath", "--help"], Asked::Help),
        (&["typath", "-h"], Asked::Help),
        (&["typath", "--version"], Asked::Version),
        (&["typath", "--"], Asked::Answers),
        (&["typath", "-"], Asked::Nothing),
        (&["typath", "--", "--help"], Asked::Nothing),
        (&["typath", "help"], Asked::Nothing),
        (&["typath", ""], Asked::Nothing),
        (&["typath", "--help", "--version"], Asked::Nothing),
    ];
    for (row, asked) in rows {
        let mut words = Vec::new(alloc);
        for word in row {
            words.push(String::from_str(alloc, word)?)?;
        }
        assert_eq!(rt; asked_for(words.as_slice()), asked);
    }
    Ok(())
}

#[test]
fn help_names_all_commands_and_refusals(rt: HostRuntime) {
    for name in [
        "components",
        "normalize",
        "join",
        "join_checked",
        "convert",
        "convert_checked",
        "derive",
        "BadLine",
        "UnexpectedPrefix",
        "UnexpectedRoot",
        "PathTraversalAttack",
        "InvalidFilename",
    ] {
        assert!(rt; HELP.contains(name));
    }
}
