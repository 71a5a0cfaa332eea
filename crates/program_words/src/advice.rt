//! The text for words that are no command.

use crate::shape::{is_dashed, is_written};
use crate::table::{Kind, Row, row_of};
use crate::tree::{PROGRAM, command, program};
use clap::ArgMatches;
use clap::error::{Error, ErrorKind};
use rm_base::Blob;
use std::alloc::{AllocError, Global};
use std::str;

/// Prints the advice on standard error, for words behind the name of the program. What can't be written there is left
/// out: the status tells all the same.
pub fn tell<R: Eprint>(rt: &R, alloc: Global, words: &[Blob]) {
    print(rt, advise(alloc, &[PROGRAM], words));
}

/// Prints the advice for words behind the name of a command, where that is a program of its own.
pub fn tell_of<R: Eprint>(rt: &R, alloc: Global, name: &str, words: &[Blob]) {
    print(rt, advise(alloc, &[PROGRAM, name], words));
}

fn print<R: Eprint>(rt: &R, text: Result<String, AllocError>) {
    if let Ok(text) = text {
        let _ = eprint!(rt; "{text}");
    }
}

// What to say of words that are no command, behind these. No words, and words that begin with `help`, get the list of
// commands, or the help of the command that they name. So does `--help`, wherever it stands.
fn advise(alloc: Global, before: &[&str], words: &[Blob]) -> Result<String, AllocError> {
    let texts = texts_of(alloc, before, words)?;
    of_texts(alloc, texts.as_slice())
}

fn of_texts(alloc: Global, texts: &[&str]) -> Result<String, AllocError> {
    if let Some(word) = dashed(texts) {
        return of_dashed(alloc, texts, word);
    }
    match program(alloc)?.try_get_matches_from(texts) {
        Ok(matches) => of_matches(alloc, &matches),
        Err(error) => of_error(alloc, texts, &error),
    }
}

// The words as texts, behind these. There are none where one of them is no text, as std has it for a program's words.
fn texts_of<'a>(
    alloc: Global,
    before: &[&'a str],
    words: &'a [Blob],
) -> Result<Vec<&'a str>, AllocError> {
    let mut texts = Vec::new(alloc);
    for text in before {
        texts.push(*text)?;
    }
    for word in words {
        match str::from_utf8(word.as_slice()) {
            Ok(text) => texts.push(text)?,
            Err(_) => texts.truncate(before.len()),
        }
    }
    Ok(texts)
}

// The first word that begins with a dash.
fn dashed<'a>(texts: &[&'a str]) -> Option<&'a str> {
    for word in texts {
        if is_dashed(word) {
            return Some(word);
        }
    }
    None
}

// What to say of a word that begins with a dash.
fn of_dashed(alloc: Global, texts: &[&str], word: &str) -> Result<String, AllocError> {
    let row = named(texts);
    let mut command = match row {
        Some(row) => command(alloc, row)?,
        None => program(alloc)?,
    };
    if word == "--help" || word == "-h" {
        return command.render_help();
    }
    let message = format!(in alloc;
        "unexpected argument '{word}': no word of a command begins with a dash"
    )?;
    text_of(
        alloc,
        &command.error(ErrorKind::UnknownArgument, message.as_str())?,
    )
}

// What to say of an error of clap's. Where a value is wrong clap leaves out the usage.
fn of_error(alloc: Global, texts: &[&str], error: &Error) -> Result<String, AllocError> {
    let mut text = text_of(alloc, error)?;
    if let ErrorKind::InvalidValue | ErrorKind::ValueValidation = error.kind() {
        if let Some(row) = named(texts) {
            let usage = command(alloc, row)?.render_usage()?;
            write!(text, "\n{usage}\n")?;
        }
    }
    Ok(text)
}

// What to say of words that clap takes.
fn of_matches(alloc: Global, matches: &ArgMatches<'_>) -> Result<String, AllocError> {
    let Some((name, values)) = matches.subcommand() else {
        return program(alloc)?.render_help();
    };
    let Some(row) = row_of(name) else {
        return program(alloc)?.render_help();
    };
    let mut command = command(alloc, row)?;
    match strange_number(row, values) {
        Some((name, number)) => {
            let message = format!(in alloc;
                "invalid value '{number}' for '<{name}>': a number has neither a sign nor a zero before it"
            )?;
            text_of(
                alloc,
                &command.error(ErrorKind::ValueValidation, message.as_str())?,
            )
        }
        None => command.render_help(),
    }
}

// The first number that has a sign or a zero before it, and the name of its place.
fn strange_number<'a>(row: &Row, values: &ArgMatches<'a>) -> Option<(&'static str, &'a str)> {
    for word in row.words {
        if let Kind::Number { .. } = word.kind {
            if let Some(text) = strange_text(values, word.name) {
                return Some((word.name, text));
            }
        }
    }
    None
}

fn strange_text<'a>(values: &ArgMatches<'a>, name: &str) -> Option<&'a str> {
    let number = values.get_one::<u64>(name)?;
    let text = values.get_str(name)?;
    if is_written(number, text) {
        None
    } else {
        Some(text)
    }
}

// The command that the first word behind the program's name names.
fn named(texts: &[&str]) -> Option<&'static Row> {
    row_of(texts.get(1)?)
}

fn text_of(alloc: Global, error: &Error) -> Result<String, AllocError> {
    format!(in alloc; "{error}")
}
