use clap::{Arg, ArgAction, ArgMatches, Command as Parser, value_parser};
use command_line::{Command, command_of};
use std::alloc::{AllocError, Global};
use std::test::Fail;

/// Well-formed command lines.
const LINES: [&str; 26] = [
    "once --seed 0",
    "once --seed 7",
    "once --seed 10",
    "once --seed 4294967296",
    "once --seed 18446744073709551615",
    "once --seed=0",
    "once --seed=7",
    "once --seed=18446744073709551615",
    "once --seed 7 --summary",
    "once --seed=7 --summary",
    "once --summary --seed 7",
    "once --summary --seed=7",
    "once --summary --seed 18446744073709551615",
    "once --seed=0 --summary",
    "threads --workers 1",
    "threads --workers 2",
    "threads --workers 10",
    "threads --workers 16",
    "threads --workers=1",
    "threads --workers=9",
    "threads --workers=16",
    "gen 0",
    "gen 1",
    "gen 10",
    "gen 4294967296",
    "gen 18446744073709551615",
];

fn parser<'a>(alloc: Global) -> Result<Parser<'a>, AllocError> {
    let seed = Arg::new(alloc, "seed")
        .long("seed")
        .required(true)
        .value_parser(value_parser!(u64));
    let summary = Arg::new(alloc, "summary")
        .long("summary")
        .action(ArgAction::SetTrue);
    let once = Parser::new(alloc, "once").arg(seed)?.arg(summary)?;
    let workers = Arg::new(alloc, "workers")
        .long("workers")
        .required(true)
        .value_parser(value_parser!(u8));
    let threads = Parser::new(alloc, "threads").arg(workers)?;
    let number = Arg::new(alloc, "number")
        .required(true)
        .value_parser(value_parser!(u64));
    let generate = Parser::new(alloc, "gen").arg(number)?;
    Parser::new(alloc, "angle_run")
        .subcommand(once)?
        .subcommand(threads)?
        .subcommand(generate)
}

/// The command that was met.
fn command_in(matches: &ArgMatches<'_>) -> Option<Command> {
    let (name, options) = matches.subcommand()?;
    match name {
        "once" => Some(Command::Once {
            seed: options.get_one::<u64>("seed")?,
            summary: options.get_flag("summary"),
        }),
        "threads" => Some(Command::Threads {
            workers: options.get_one::<u8>("workers")?,
        }),
        "gen" => Some(Command::Gen {
            number: options.get_one::<u64>("number")?,
        }),
        _ => None,
    }
}

#[test]
fn clap_reads_the_same_commands(rt: HostRuntime) -> Result<(), Fail> {
    for line in LINES {
        let mut texts = Vec::new(rt.alloc());
        texts.push("angle_run")?;
        let mut words = Vec::new(rt.alloc());
        for word in line.split_whitespace() {
            texts.push(word)?;
            words.push(String::from_str(rt.alloc(), word)?)?;
        }
        let matches = parser(rt.alloc())?.try_get_matches_from(texts.as_slice())?;
        let command = command_in(&matches);
        assert!(rt; command.is_some(), "{line}");
        assert!(rt; command_of(&words) == command, "{line}");
    }
    Ok(())
}
