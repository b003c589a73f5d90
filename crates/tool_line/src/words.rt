//! The words of a command line, read with clap by a table of options.

ghost use Rattle.std.specs.Prelude.{◌≡◌, [], Err, IfOk, None, true, map, is_some, option_map, option_and_then, slice_get};
ghost use Rattle.std.specs.Prelude.{false, IsUtf8};
ghost use Rattle.clap.specs.Words.{app_of, rule_of};
ghost use Rattle.tool_line.specs.Parser.{AreUtf8, IsReadAs, Tells, app, option_of, option_rule, said, table_of, word_rule};
ghost use Rattle.tool_line.specs.Words.{has_names, read};

use crate::fault::WordFault;
use clap::error::ErrorKind;
use clap::{Arg, ArgAction, ArgMatches, Command};
use item_list::NoMemory;
use std::alloc::Global;

/// An option of a table: its name without dashes, and whether it takes a value. One that takes none is a flag.
#[derive(Clone, Copy)]
pub struct Choice<'a> {
    pub name: &'a str,
    pub takes_value: bool,
}

/// The words of a command line, read by a table of options. Contracts see what is said under each name.
#[derive(Drop)]
pub struct Words<'a> {
    matches: ArgMatches<'a>,
}

/// Reads the words by a table of options. They are refused where they aren't options of the table and plain words.
pub fn read_words<'a>(
    alloc: Global,
    table: &'a [Choice<'a>],
    words: &'a [&'a str],
) -> Result<Words<'a>, WordFault>
    requires names { has_names (table_of table.now) ≡ true }
    ensures read { IfOk result (IsReadAs (read (table_of table.now) (map (λ w. w.now) words.now))) }
    ensures refused { result ≡ Err WordFault.Refused
        → read (table_of table.now) (map (λ w. w.now) words.now) ≡ None }
{
    match parse(alloc, table, words)? {
        Some(read) => Ok(read),
        None => Err(WordFault::Refused),
    }
}

/// Reads the words; none where they are refused.
fn parse<'a>(
    alloc: Global,
    table: &'a [Choice<'a>],
    words: &'a [&'a str],
) -> Result<Option<Words<'a>>, NoMemory>
    requires names { has_names (table_of table.now) ≡ true }
    ensures { IfOk result (Tells (read (table_of table.now) (map (λ w. w.now) words.now))) }
{
    all_text(words);
    match command(alloc, table)?.try_get_matches_from(words) {
        Ok(matches) => Ok(Some(Words { matches })),
        Err(error) => {
            if error.kind() == ErrorKind::OutOfMemory {
                Err(NoMemory)
            } else {
                Ok(None)
            }
        }
    }
}

/// Each word is text, as every `&str` is: this is for the proof alone.
fn all_text(words: &[&str])
    ensures { AreUtf8 (map (λ w. w.now) words.now) }
{
    for word in words {
        text(word);
    }
}

fn text(word: &str)
    ensures { IsUtf8 word.now }
{}

/// The command of the table: its options, and any number of plain words.
fn command<'a>(alloc: Global, table: &'a [Choice<'a>]) -> Result<Command<'a>, NoMemory>
    ensures { IfOk result (λ c. app_of c ≡ app (table_of table.now)) }
{
    let mut command = Command::new(alloc, "")
        .no_binary_name(true)
        .disable_help_flag(true)
        .disable_version_flag(true);
    for option in table {
        command = command.arg(option_arg(alloc, option))?;
    }
    Ok(command.arg(word_arg(alloc))?)
}

/// A flag takes no value, and another option one.
fn option_arg<'a>(alloc: Global, option: &Choice<'a>) -> Arg<'a>
    ensures rule { rule_of result ≡ option_rule (option_of option.now) }
    ensures local { result.global ≡ false }
{
    let values: usize = if option.takes_value { 1 } else { 0 };
    Arg::new(alloc, option.name)
        .long(option.name)
        .action(ArgAction::Set)
        .num_args(values)
}

/// The plain words.
fn word_arg<'a>(alloc: Global) -> Arg<'a>
    ensures rule { rule_of result ≡ word_rule }
    ensures local { result.global ≡ false }
{
    Arg::new(alloc, "").action(ArgAction::Append)
}

impl<'a> Words<'a> {
    /// Whether the option was used.
    pub fn has(&self, name: &str) -> bool
        ensures { result ≡ is_some (said self.now name.now) }
    {
        self.matches.contains_id(name)
    }

    /// The value of the option, if it was used.
    pub fn value(&self, name: &str) -> Option<&'a str>
        ensures { option_map (λ v. v.now) result
            ≡ option_and_then (λ vs. slice_get vs 0) (said self.now name.now) }
    {
        self.matches.get_str(name)
    }

    /// The plain words, if there are any.
    pub fn plain(&self) -> Option<&[&'a str]>
        ensures { option_map (λ vs. map (λ v. v.now) vs.now) result ≡ said self.now [] }
    {
        self.matches.get_strs("")
    }
}
