//! glwhy: tells of a script why it is refused, what becomes of each of its calls, and what these sum up to.
#![tactic(auto)]

mod asked;
mod json;
mod page;
mod stop;
mod telling;

use asked::{Asked, command};
use clap::ArgMatches;
use gl_outside::StdoutSink;
use page::Page;
use std::fs::File;
use std::io::{IsTerminal, Read};
use std::process::ExitCode;
use std::thread::Threads;
use std::{env, io};
use stop::Stop;
use telling::tell;

/// One byte more than a script may have.
const ENOUGH: u64 = 8_388_609;

/// The bytes of the script that is asked about.
fn read_script(rt: HostRuntime, asked: &Asked<'_>) -> Result<Vec<u8>, Stop> {
    let mut bytes = Vec::new(rt.alloc());
    let answer = match asked.file {
        Some(name) => read_file(rt, name, &mut bytes),
        None if rt.stdin().is_terminal() => return Err(Stop::NoScript(asked.name)),
        None => rt.reader().take(ENOUGH).read_to_end(&mut bytes),
    };
    match answer {
        Ok(_) => Ok(bytes),
        Err(error) if error.kind() == io::ErrorKind::OutOfMemory => Err(Stop::NoMemory),
        Err(error) => Err(Stop::Unread(error)),
    }
}

fn read_file(rt: HostRuntime, name: &str, bytes: &mut Vec<u8>) -> io::Result<usize> {
    File::open(&rt, name)?.take(ENOUGH).read_to_end(bytes)
}

/// The words of the command line, the program's name first.
fn words_of(rt: HostRuntime) -> Result<Vec<String>, Stop> {
    match env::args(&rt) {
        Ok(words) => Ok(words.collect(rt.alloc())?),
        Err(error) if error.kind() == io::ErrorKind::InvalidData => Err(Stop::NoText),
        Err(_) => Err(Stop::NoMemory),
    }
}

/// Does what is asked by words of the command line, the program's name first, and gives the exit status.
fn run<T: Threads + Sync>(rt: HostRuntime, threads: &T, words: &[String]) -> Result<u8, Stop> {
    let command = command(rt.alloc())?;
    match command.try_get_matches_from(words) {
        Ok(matches) => do_asked(rt, threads, &matches),
        Err(error) => print_words(rt, error),
    }
}

/// Does what is asked by words that were parsed, and gives the exit status.
fn do_asked<T: Threads + Sync>(
    rt: HostRuntime,
    threads: &T,
    matches: &ArgMatches<'_>,
) -> Result<u8, Stop> {
    let Some(asked) = Asked::from_matches(matches) else {
        return Err(Stop::NoMemory);
    };
    match read_script(rt, &asked) {
        Ok(bytes) => {
            let mut page = Page::new(rt.alloc(), StdoutSink::new(rt));
            tell(rt, threads, rt.alloc(), &asked, bytes.as_slice(), &mut page)
        }
        Err(Stop::Unread(error)) => {
            let name = asked.file_name();
            let _taken = eprintln!(rt; "glwhy: {name}: {error}");
            Ok(3)
        }
        Err(stop) => Err(stop),
    }
}

/// Takes the words of the command line, does what they ask, and gives the exit status.
fn run_words<T: Threads + Sync>(rt: HostRuntime, threads: &T) -> Result<u8, Stop> {
    let words = words_of(rt)?;
    run(rt, threads, words.as_slice())
}

/// Prints help, version, or what is wrong with the words.
fn print_words(rt: HostRuntime, error: clap::Error) -> Result<u8, Stop> {
    let code = error.exit_code();
    match error.print(&rt) {
        Ok(()) => Ok(if code == 0 { 0 } else { 2 }),
        Err(_) => Err(Stop::Unwritten),
    }
}

fn main(rt: HostRuntime) -> ExitCode {
    match run_words(rt, &rt) {
        Ok(code) => ExitCode::from(code),
        Err(stop) => {
            let code = stop.exit_code();
            let _taken = eprintln!(rt; "{stop}");
            ExitCode::from(code)
        }
    }
}
