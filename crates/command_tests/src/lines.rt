use command_line::{Command, command_of};
use std::test::Fail;

const ONCE: Option<Command> = Some(Command::Once {
    seed: 7,
    summary: false,
});

const SUMMED: Option<Command> = Some(Command::Once {
    seed: 7,
    summary: true,
});

const LAST: Option<Command> = Some(Command::Gen {
    number: 18446744073709551615,
});

const LINES: [(&str, Option<Command>); 29] = [
    ("once --seed 7", ONCE),
    ("once --seed=7", ONCE),
    ("once --seed 7 --summary", SUMMED),
    ("once --seed=7 --summary", SUMMED),
    ("once --summary --seed 7", SUMMED),
    ("once --summary --seed=7", SUMMED),
    ("threads --workers 1", Some(Command::Threads { workers: 1 })),
    (
        "threads --workers=16",
        Some(Command::Threads { workers: 16 }),
    ),
    ("gen 0", Some(Command::Gen { number: 0 })),
    ("gen 18446744073709551615", LAST),
    ("", None),
    ("once", None),
    ("once --summary", None),
    ("once --seed", None),
    ("once --seed 01", None),
    ("once --seed +1", None),
    ("once --seed=-1", None),
    ("once --seed = 1", None),
    ("once --seed 1 --seed 1", None),
    ("once --summary --seed 1 --summary", None),
    ("once --see 1", None),
    ("once 1", None),
    ("threads --workers 0", None),
    ("threads --workers 17", None),
    ("threads --workers 1 --summary", None),
    ("gen -- 1", None),
    ("gen 18446744073709551616", None),
    ("gen 1 2", None),
    ("check", None),
];

#[test]
fn each_command_line(rt: HostRuntime) -> Result<(), Fail> {
    for (line, command) in LINES {
        let mut words = Vec::new(rt.alloc());
        for word in line.split_whitespace() {
            words.push(String::from_str(rt.alloc(), word)?)?;
        }
        assert!(rt; command_of(&words) == command, "{line}");
    }
    Ok(())
}
