//! The table of commands for clap.

use crate::table::{Kind, ROWS, Row, Word};
use clap::builder::ValueParser;
use clap::{Arg, Command};
use std::alloc::{AllocError, Global};

/// The name of the program.
pub const PROGRAM: &str = "wsrm";

/// The program, with all its commands.
pub fn program<'a>(alloc: Global) -> Result<Command<'a>, AllocError> {
    let mut program = Command::new(alloc, PROGRAM)
        .disable_help_flag(true)
        .subcommand_required(true)
        .arg_required_else_help(true);
    for row in &ROWS {
        program = program.subcommand(bare(alloc, row)?)?;
    }
    Ok(program)
}

/// One command alone, under its whole name.
pub fn command<'a>(alloc: Global, row: &Row) -> Result<Command<'a>, AllocError> {
    let name = format!(in alloc; "{PROGRAM} {}", row.name)?;
    bare(alloc, row)?.bin_name(name.as_str())
}

fn bare<'a>(alloc: Global, row: &Row) -> Result<Command<'a>, AllocError> {
    let mut command = Command::new(alloc, row.name)
        .about(row.about)
        .disable_help_flag(true);
    for word in row.words {
        command = command.arg(arg(alloc, word))?;
    }
    Ok(command)
}

fn arg<'a>(alloc: Global, word: &Word) -> Arg<'a> {
    let arg = Arg::new(alloc, word.name).help(word.help).required(true);
    match word.kind {
        Kind::Number { low, high } => arg.value_parser(ValueParser::unsigned(low, high)),
        Kind::OneOf { values } => arg.value_parser(values),
        Kind::Text => arg,
    }
}
