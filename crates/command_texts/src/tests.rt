//! What is said in place of a task, word for word where it is the program's own.
use command_line::{NoTask, tasks_in};
use std::test::Fail;

// The words of a line, with one blank between two.
fn words_of(rt: &HostRuntime, line: &str) -> Result<Vec<String>, Fail> {
    let mut words = Vec::new(rt.alloc());
    for word in line.split(' ') {
        words.push(String::from_str(rt.alloc(), word)?)?;
    }
    Ok(words)
}

// What is said of a line that asks for no task.
fn said_of(rt: &HostRuntime, line: &str) -> Result<NoTask, Fail> {
    let words = words_of(rt, line)?;
    match tasks_in(rt.alloc(), words.as_slice()) {
        Ok(_) => Err("a task".into()),
        Err(said) => Ok(said),
    }
}

#[test]
fn help_has_each_argument_and_an_example(rt: HostRuntime) -> Result<(), Fail> {
    let NoTask::Shown(text) = said_of(&rt, "help extract")? else {
        return Err("no help".into());
    };
    for part in [
        "Usage: departures extract [OPTIONS] <STATION> <DATE> <FILE>...",
        "  <STATION>  ",
        "  <DATE>     ",
        "  <FILE>...  ",
        "--store <STORE>  ",
        "[default: table]",
        "--capacity <CAPACITY>  ",
        "[default: 2000]",
        "--base <FILE>  ",
        "Example:\n  departures extract ",
    ] {
        assert!(&rt; text.as_str().contains(part), "{part}");
    }
    Ok(())
}

#[test]
fn help_on_a_page_has_its_options(rt: HostRuntime) -> Result<(), Fail> {
    let NoTask::Shown(text) = said_of(&rt, "glass --help")? else {
        return Err("no help".into());
    };
    for part in [
        "Take extracts in order, confirm each, and print the page of the board\n",
        "Usage: departures glass [OPTIONS] <STATION> <DATE> <FILE>...\n",
        "--store <STORE>  ",
        "--capacity <CAPACITY>  ",
        "--name <NAME>          The local name that heads the page\n",
        "--at <HH:MM>           The time from which on the page shows departures [default: 00:00]\n",
        "--svg <FILE>           A file that the page is written to, as a picture\n",
        "Example:\n  departures glass --name 'Halta Road' --at 09:00 HALTA 240304 week.cif\n",
    ] {
        assert!(&rt; text.as_str().contains(part), "{part}");
    }
    Ok(())
}

#[test]
fn help_on_pages_has_the_count(rt: HostRuntime) -> Result<(), Fail> {
    let NoTask::Shown(text) = said_of(&rt, "pages --help")? else {
        return Err("no help".into());
    };
    for part in [
        "Write the page of a board many times, for measuring\n",
        "Usage: departures pages [OPTIONS] <COUNT> <STATION> <DATE> <FILE>...\n",
        "  <COUNT>    How many times the page is written\n",
        "Example:\n  departures pages 1000 HALTA 240304 week.cif\n",
    ] {
        assert!(&rt; text.as_str().contains(part), "{part}");
    }
    Ok(())
}

// The tasks as help lists them.
const TASKS: &str = "\
Tasks:
  run      Take extracts in order, confirm each, and print the board
  glass    Take extracts in order, confirm each, and print the page of the board
  replay   Do the calls of scripts to controllers over both stores side by side
  rows     Tell what each row of files holds, or why it is turned away
  stores   Put the schedules of files into both stores, and list them
  board    Put the schedules of files into a store, and print the board
  turns    Turn a board many times, for measuring
  pages    Write the page of a board many times, for measuring
  extract  Take extracts row by row, tell what is pending, and abandon each
";

#[test]
fn help_has_the_tasks_in_order(rt: HostRuntime) -> Result<(), Fail> {
    let NoTask::Shown(text) = said_of(&rt, "--help")? else {
        return Err("no help".into());
    };
    assert!(&rt; text.as_str().contains(TASKS), "{text}");
    Ok(())
}

#[test]
fn wrong_words_are_told(rt: HostRuntime) -> Result<(), Fail> {
    for (line, expected) in [
        (
            "run --store shelf HALTA 240304 week.cif",
            "error: invalid value 'shelf' for '--store <STORE>'\n  [possible values: table, bag]\n",
        ),
        (
            "glass --at 9:05 HALTA 240304 week.cif",
            "error: invalid value '9:05' for '--at <HH:MM>'\n  [possible values: two digits, a colon and two digits, as 09:05]\n\nFor more information, try '--help'.\n",
        ),
        (
            "glass --at=09:05: --store shelf HALTA 240304 week.cif",
            "error: invalid value 'shelf' for '--store <STORE>'\n  [possible values: table, bag]\n",
        ),
        (
            "rows -x",
            "error: unexpected argument '-x' found\n\n  tip: to name a file that begins with '-', write './' before it\n\nUsage: departures rows",
        ),
        (
            "rows week.cif -- run HALTA",
            "error: the following required arguments were not provided:\n  <DATE>\n  <FILE>...\n",
        ),
    ] {
        let NoTask::Wrong(text) = said_of(&rt, line)? else {
            return Err("no error".into());
        };
        assert!(&rt; text.as_str().starts_with(expected), "{text}");
    }
    Ok(())
}
