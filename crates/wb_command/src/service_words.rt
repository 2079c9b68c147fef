//! The words of a service.
use crate::journal_words::file_argument;
use crate::setup_words::with_setup;
use crate::words::with_verbose;
use clap::{Arg, ArgAction, ArgMatches, Command, value_parser};
use std::alloc::{AllocError, Global};

/// The most turns that a service can be told to serve.
const MOST_TURNS: i64 = 1_000_000_000;

const EXAMPLE: &str = "Example:
  weighbridge serve --file journal.db --terminal 127.0.0.1:4001 --office 127.0.0.1:8080 --converter tcp:127.0.0.1:4000 \\
    --window 10
serves the bridge whose converter sends its lines on port 4000. It ends when the converter ends or a million lines were read, and
then prints the number of turns.
If the window has fewer readings than come in a second, a wrong weight of a load that swings may be stored. Give --window 10 at 10
readings a second.";

/// Over what a bridge is to be served, and for how long.
#[derive(Drop)]
pub struct Service {
    /// The file of the journal.
    pub file: String,
    /// The address of the terminal.
    pub terminal: String,
    /// The address of the office.
    pub office: String,
    /// The file of the converter, or `tcp:` and its address.
    pub converter: String,
    /// The most turns.
    pub turns: u64,
    /// Whether what happens is reported on standard error.
    pub is_verbose: bool,
    /// Whether it is only looked at whether it would start.
    pub is_look: bool,
}

/// A text that has to be given: its name, what it stands for, and its help.
struct Text(&'static str, &'static str, &'static str);

static TEXTS: [Text; 3] = [
    Text(
        "terminal",
        "ADDRESS",
        "address of the terminal: an IPv4 address of 127.0.0.0/8, a colon and a port",
    ),
    Text(
        "office",
        "ADDRESS",
        "address of the office, of the same form",
    ),
    Text(
        "converter",
        "SOURCE",
        "file or device of the converter, or tcp: and the address to connect to",
    ),
];

fn text_argument<'a>(alloc: Global, text: &Text) -> Arg<'a> {
    let Text(name, value, help) = *text;
    Arg::new(alloc, name)
        .long(name)
        .value_name(value)
        .required(true)
        .action(ArgAction::Set)
        .help(help)
}

fn with_texts<'a>(alloc: Global, command: Command<'a>) -> Result<Command<'a>, AllocError> {
    let mut command = command;
    for text in TEXTS.as_slice() {
        command = command.arg(text_argument(alloc, text))?;
    }
    Ok(command)
}

fn turns_argument<'a>(alloc: Global) -> Arg<'a> {
    Arg::new(alloc, "turns")
        .long("turns")
        .action(ArgAction::Set)
        .value_parser(value_parser!(u64).range(1..=MOST_TURNS))
        .default_value("1000000")
        .help(
            "number of turns after which it ends; each turn reads a line of the converter: 1 to 1000000000",
        )
}

fn look_argument<'a>(alloc: Global) -> Arg<'a> {
    Arg::new(alloc, "check")
        .long("check")
        .action(ArgAction::SetTrue)
        .help(
            "start nothing, and report whether the service would start: status 0 if it would, 1 if it can't now, 2 if these arguments never can",
        )
}

/// The subcommand `serve`.
pub(crate) fn serve_command<'a>(alloc: Global) -> Result<Command<'a>, AllocError> {
    let serve = Command::new(alloc, "serve")
        .about("serves a weighbridge: its converter, its terminal and its office")
        .after_help(EXAMPLE)
        .arg(file_argument(
            alloc,
            "file of the journal; if it doesn't exist, it is made",
        ))?;
    let serve = with_texts(alloc, serve)?;
    let serve = serve.arg(turns_argument(alloc))?;
    let help = "report connections, requests and faults on standard error";
    let serve = with_verbose(alloc, serve, help)?;
    let serve = serve.arg(look_argument(alloc))?;
    with_setup(alloc, serve)
}

/// The service that the words ask for. None if a word is missing, which `clap` doesn't let through.
pub(crate) fn service_of(
    alloc: Global,
    words: &ArgMatches<'_>,
) -> Result<Option<Service>, AllocError> {
    let (Some(file), Some(terminal)) = (words.get_str("file"), words.get_str("terminal")) else {
        return Ok(None);
    };
    let (Some(office), Some(converter)) = (words.get_str("office"), words.get_str("converter"))
    else {
        return Ok(None);
    };
    let Some(turns) = words.get_one::<u64>("turns") else {
        return Ok(None);
    };
    Ok(Some(Service {
        file: String::from_str(alloc, file)?,
        terminal: String::from_str(alloc, terminal)?,
        office: String::from_str(alloc, office)?,
        converter: String::from_str(alloc, converter)?,
        turns,
        is_verbose: words.get_flag("verbose"),
        is_look: words.get_flag("check"),
    }))
}
