// The words of the command line.
ghost use Rattle.std.specs.Prelude.{◌≤◌, length};
ghost use Rattle.std.specs.Vec.Iter.{into_iter_items};

use anyhow::{Result, bail};
use framing::{LONGEST_BODY, LONGEST_METADATA};
use std::env::Args;
use std::str::FromStr;

pub(crate) const HELP: &str = "\
fegzund: lists what a recorded Arrow IPC stream holds

    fegzund inspect [OPTIONS] FILE     the frames of a stream, and what their metadata say
    fegzund help                       this text

FILE is a path, or - for standard input.

    --reading flatbuffers | slip       how metadata are read (flatbuffers)
    --message-hold N                   the longest metadata, 1 to 1048576 bytes (1048576)
    --body-hold N                      the longest body, 0 to 16777216 bytes (16777216)

For each frame, once its body is whole:

    frame M position P marker yes|no size S version V type T body B
    row K kind A flag B tag C parameter D id E end F
    batch length L compressed yes|no missing yes|no nodes N buffers B counts C
    dictionary id I delta yes|no length L compressed yes|no missing yes|no nodes N buffers B counts C
    node K length L nulls N
    buffer K offset O length L
    count K value C
    end M position P

M counts the frames before this one, and P is the place of its first byte. The last line is one of

    refused R message M position P     3: a byte behind the end; 4: metadata longer than their hold;
                                       5: metadata that can't be read; 6: a body length below 0 or above its hold
    finish ok
    finish refused 25                  the stream stops inside a frame

The exit status is 0 where the stream is accepted, and 1 where it is refused or can't be read.
";

// How metadata are read.
#[derive(Clone, Copy, Debug, PartialEq, Eq)]
pub(crate) enum Form {
    FlatBuffers,
    Slip,
}

impl FromStr for Form {
    type Err = anyhow::Error;

    fn from_str(word: &str) -> Result<Form> {
        match word {
            "flatbuffers" => Ok(Form::FlatBuffers),
            "slip" => Ok(Form::Slip),
            other => bail!("--reading takes 'flatbuffers' or 'slip', not '{other}'"),
        }
    }
}

#[derive(Drop)]
pub(crate) struct Options {
    pub(crate) form: Form,
    pub(crate) metadata: usize,
    pub(crate) body: usize,
    pub(crate) file: String,
}

#[derive(Drop)]
pub(crate) enum Command {
    Help,
    Inspect(Options),
}

pub(crate) fn parse(mut words: Args) -> Result<Command> {
    // the first word is the program's name
    words.next();
    let Some(command) = words.next() else {
        bail!("no command; write 'fegzund inspect FILE', or 'fegzund help' for all of it");
    };
    match command.as_str() {
        "help" | "--help" | "-h" => Ok(Command::Help),
        "inspect" => inspect_words(words),
        other => bail!("no command '{other}'; write 'fegzund help' for those there are"),
    }
}

fn inspect_words(mut words: Args) -> Result<Command> {
    let mut form = Form::FlatBuffers;
    let mut metadata = LONGEST_METADATA;
    let mut body = LONGEST_BODY;
    let mut file = None;
    while let Some(word) = words.next() {
        match word.as_str() {
            "--help" => return Ok(Command::Help),
            "--reading" => form = value(&mut words)?.as_str().parse()?,
            "--message-hold" => {
                metadata = length("--message-hold", &value(&mut words)?, 1, LONGEST_METADATA)?;
            }
            "--body-hold" => body = length("--body-hold", &value(&mut words)?, 0, LONGEST_BODY)?,
            option if option.len() > 1 && option.starts_with("-") => {
                bail!("no option '{option}'; write 'fegzund help' for those there are");
            }
            other if file.is_some() => bail!("one file at a time; leave out '{other}'"),
            // an empty word names no file
            "" => {}
            _ => file = Some(word),
        }
    }
    let Some(file) = file else {
        bail!("no file; write 'fegzund inspect FILE', or - for standard input");
    };
    Ok(Command::Inspect(Options {
        form,
        metadata,
        body,
        file,
    }))
}

// The word behind an option.
fn value(words: &mut Args) -> Result<String>
    ensures { length (into_iter_items words.new) ≤ length (into_iter_items words.old) }
{
    match words.next() {
        Some(word) => Ok(word),
        None => bail!("an option lacks its value; write 'fegzund help' for the options"),
    }
}

fn length(option: &str, word: &str, least: usize, most: usize) -> Result<usize> {
    match word.parse() {
        Ok(n) if least <= n && n <= most => Ok(n),
        Ok(_) | Err(_) => bail!("{option} takes a number from {least} to {most}, not '{word}'"),
    }
}
