//! Words of each kind that users write, and the commands that they give.
use command_line::{Command, Rewriting, Task, WordsFault, read_words};
use std::alloc::{AllocError, Global};
use std::process::Abort;
use std::test::Fail;

/// Each line: the expected command, and each word after a `|`.
const CASES: &str = "\
run job allowed|run|job
run job off|run|job|--no-relax
run job off|run|--no-relax|job
run - allowed|run|-
run  allowed|run|
run a=b c allowed|run|a=b c
run job allowed|run|--|job
run --no-relax allowed|run|--|--no-relax
run -- allowed|run|--|--
run -x off|run|--no-relax|--|-x
run run allowed|run|run
race job allowed|race|job
race job off|race|job|--no-relax
race - off|race|--no-relax|-
race race allowed|race|race
link job app out allowed|link|job|app|out
link a b c off|link|--no-relax|a|b|c
link a b c off|link|a|--no-relax|b|c
link a b c off|link|a|b|--no-relax|c
link a b c off|link|a|b|c|--no-relax
link a b --no-relax allowed|link|a|b|--|--no-relax
link - - - allowed|link|-|-|-
link link sites run allowed|link|link|sites|run
sites job app|sites|job|app
sites --no-relax app|sites|--|--no-relax|app
sites a=b |sites|a=b|
show image|show|image
show -|show|-
check job|check|job
check -|check|-
check --no-relax|check|--|--no-relax
gen 5|gen|5
gen 5|gen|--|5
gen 1|gen|1
gen 1000|gen|1000
usage
usage|
usage|-
usage|--
usage|job
usage|run
usage|ru|job
usage|Run|job
usage|run|job|more
usage|run|--no-relax
usage|run|--no-relax|--no-relax|job
usage|run|job|--|--no-relax
usage|run|job|--no-rel
usage|run|job|--no-relax=true
usage|run|job|-n
usage|--|run|job
usage|--no-relax|run|job
usage|help
usage|help|run
usage|--help
usage|run|job|--help
usage|-h
usage|race
usage|race|job|more
usage|race|job|--help
usage|rac|job
usage|link
usage|link|a|b
usage|link|a|b|c|d
usage|link|a|b|--no-relax
usage|link|--no-relax|a|b|c|--no-relax
usage|link|a|b|c|--no-relax=true
usage|link|a|b|c|-n
usage|link|a|b|c|--help
usage|lin|a|b|c
usage|sites
usage|sites|a
usage|sites|a|b|c
usage|sites|a|b|--no-relax
usage|sites|--no-relax|a|b
usage|sites|--help
usage|site|a|b
usage|show
usage|show|image|more
usage|check
usage|check|job|more
usage|check|job|--no-relax
usage|check|--no-relax|job
usage|check|--help
usage|chec|job
usage|gen
usage|gen|5|6
usage|gen|05
usage|gen|+5
usage|gen|-5
usage|gen|--|-5
usage|gen|0x5
usage|gen|0
usage|gen|1001
usage|gen|4294967297
usage|gen|18446744073709551617
usage|gen|5 
usage|gen| 5
usage|gen|5.0
usage|gen|5a
usage|gen|1_000
usage|gen|
usage|gen|--
usage|gen|-
usage|gen|5|--no-relax
usage|gen|--no-relax|5
usage|ge|5
";

/// Whether sequences may be rewritten, as a case writes it.
fn shown(rewriting: Rewriting) -> &'static str {
    match rewriting {
        Rewriting::Allowed => "allowed",
        Rewriting::Off => "off",
    }
}

/// A task, as a case writes it.
fn task_told(alloc: Global, task: Task) -> Result<String, AllocError> {
    match task {
        Task::Run { job, rewriting } => format!(in alloc;
            "run {} {}",
            job.as_str(),
            shown(rewriting)
        ),
        Task::Link {
            job,
            image,
            out,
            rewriting,
        } => {
            format!(in alloc;
                "link {} {} {} {}",
                job.as_str(),
                image.as_str(),
                out.as_str(),
                shown(rewriting)
            )
        }
        Task::Sites { job, image } => format!(in alloc;
            "sites {} {}",
            job.as_str(),
            image.as_str()
        ),
        Task::Show { file } => format!(in alloc; "show {}", file.as_str()),
        Task::Check { job } => format!(in alloc; "check {}", job.as_str()),
        Task::Gen { count } => format!(in alloc; "gen {count}"),
    }
}

/// The command, as a case writes it.
fn told(alloc: Global, command: Result<Command, WordsFault>) -> Result<String, AllocError> {
    match command {
        Ok(Command::Plain(task)) => task_told(alloc, task),
        Ok(Command::Race { job, rewriting }) => format!(in alloc;
            "race {} {}",
            job.as_str(),
            shown(rewriting)
        ),
        Err(fault) => format!(in alloc; "{fault}"),
    }
}

/// The words of a case.
fn words_of(alloc: Global, line: &str) -> Result<Vec<String>, AllocError> {
    let mut words = Vec::new(alloc);
    for word in line.split('|').skip(1) {
        words.push(String::from_str(alloc, word)?)?;
    }
    Ok(words)
}

/// Checks the command of one line.
fn check(rt: &impl Abort, alloc: Global, line: &str) -> Result<(), AllocError> {
    let words = words_of(alloc, line)?;
    let found = told(alloc, read_words(alloc, words.as_slice()))?;
    assert!(rt; Some(found.as_str()) == line.split('|').next(), "{line}");
    Ok(())
}

#[test]
fn words_ask_for_commands(rt: HostRuntime) -> Result<(), Fail> {
    for line in CASES.lines() {
        check(&rt, rt.alloc(), line)?;
    }
    Ok(())
}
