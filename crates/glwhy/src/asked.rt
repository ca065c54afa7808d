//! What the words of the command line ask for.

use clap::{Arg, ArgAction, ArgMatches, Command, value_parser};
use std::alloc::{AllocError as NoMemory, Global};

/// Which calls of a trace are listed.
#[derive(Clone, Copy, PartialEq, Eq)]
pub enum Only {
    All,
    Errors,
    Waits,
}

/// What is told of a script.
#[derive(Clone, Copy)]
pub enum What {
    Check,
    Trace(Only),
    Counts { json: bool },
}

/// What the words ask for.
#[derive(Clone, Copy)]
pub struct Asked<'a> {
    /// The command's own word.
    pub name: &'static str,
    pub what: What,
    /// The file that is named.
    pub file: Option<&'a str>,
    /// The slots of a batch, 16 to 8192.
    pub size: u32,
}

impl<'a> Asked<'a> {
    /// What is asked for by words that were parsed.
    pub fn from_matches(matches: &ArgMatches<'a>) -> Option<Asked<'a>> {
        let (name, inner) = matches.subcommand()?;
        let (name, what) = match name {
            "check" => ("check", What::Check),
            "trace" => ("trace", What::Trace(only_of(inner.get_str("only")))),
            _ => {
                let json = inner.get_flag("json");
                ("counts", What::Counts { json })
            }
        };
        Some(Asked {
            name,
            what,
            file: inner.get_str("FILE"),
            size: inner.get_one::<u32>("batch").unwrap_or(1024),
        })
    }

    /// The name of the file, or what stands for it.
    pub fn file_name(&self) -> &'a str {
        self.file.unwrap_or("<stdin>")
    }
}

fn only_of(word: Option<&str>) -> Only {
    match word {
        Some("errors") => Only::Errors,
        Some("waits") => Only::Waits,
        _ => Only::All,
    }
}

/// Which calls `--only` lists.
static WHICH: [&str; 2] = ["errors", "waits"];

fn file_arg<'a>(alloc: Global) -> Arg<'a> {
    Arg::new(alloc, "FILE").help("The script; standard input where none is named")
}

fn batch_arg<'a>(alloc: Global) -> Arg<'a> {
    Arg::new(alloc, "batch")
        .long("batch")
        .value_name("SLOTS")
        .help("Slots of eight bytes in a batch, 16 to 8192")
        .value_parser(value_parser!(u32).range(16..=8192))
        .default_value("1024")
}

/// The commands and their words.
pub fn command<'a>(alloc: Global) -> Result<Command<'a>, NoMemory> {
    let check = Command::new(alloc, "check")
        .about("Tells whether a script is accepted, or its first fault")
        .arg(file_arg(alloc))?;
    let only = Arg::new(alloc, "only")
        .long("only")
        .value_name("WHICH")
        .help("Lists calls with errors, or calls that wait, alone")
        .value_parser(WHICH.as_slice());
    let trace = Command::new(alloc, "trace")
        .about("Tells what becomes of each call, and why")
        .arg(only)?
        .arg(batch_arg(alloc))?
        .arg(file_arg(alloc))?;
    let json = Arg::new(alloc, "json")
        .long("json")
        .help("Prints JSON, for programs")
        .action(ArgAction::SetTrue);
    let counts = Command::new(alloc, "counts")
        .about("Tells what the calls of a script sum up to")
        .arg(json)?
        .arg(batch_arg(alloc))?
        .arg(file_arg(alloc))?;
    Command::new(alloc, "glwhy")
        .version("0.1.0")
        .about("Tells why a script of OpenGL ES calls is refused, and what becomes of its calls")
        .subcommand_required(true)
        .subcommand(check)?
        .subcommand(trace)?
        .subcommand(counts)
}
