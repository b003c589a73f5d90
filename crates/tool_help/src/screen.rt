//! The screen of a tool: how it is used, and a line for each of its options.

ghost use Rattle.std.specs.Prelude.{◌≡◌, ◌++◌, ◌-◌, length, map, replicate, IfOk, OnErr, OnOk};
ghost use Rattle.std.specs.List.{flat_map};
ghost use Rattle.std.specs.String.{string_bytes};
ghost use Rattle.tool_help.specs.Screen as meaning;

use crate::adig_rows::adig_rows;
use crate::ahost_rows::ahost_rows;
use crate::row::OptionRow;
use item_list::NoMemory;
use std::alloc::Global;
use tool_line::Tool;

/// Behind so many bytes a line says what its option does.
const WIDTH: usize = 26;

/// The options of a tool: those by which its words are read, no more and no fewer.
pub fn option_rows(tool: Tool) -> &'static [OptionRow]
    ensures { map meaning.column_of result.now ≡ meaning.options_of tool }
{
    match tool {
        Tool::Adig => adig_rows(),
        Tool::Ahost => ahost_rows(),
    }
}

/// Adds how the tool is used, and a line for each of its options. For want of memory the text is as before.
pub fn put_screen(alloc: Global, text: &mut String, tool: Tool) -> Result<(), NoMemory>
    ensures ok { OnOk result (meaning.PutsScreen tool (string_bytes text.old) (string_bytes text.new)) }
    ensures err { OnErr result (string_bytes text.new ≡ string_bytes text.old) }
{
    let mut screen = String::new(alloc);
    screen.push_str(usage(tool))?;
    put_rows(alloc, &mut screen, option_rows(tool))?;
    text.push_str(screen.as_str())?;
    Ok(())
}

/// How the tool is used.
fn usage(tool: Tool) -> &'static str
    ensures { result.now ≡ meaning.usage_of tool }
{
    match tool {
        Tool::Adig => "usage: adig [option ...] name\n",
        Tool::Ahost => "usage: ahost [option ...] name ...\n",
    }
}

/// Adds a line for each of these options.
fn put_rows(alloc: Global, text: &mut String, rows: &[OptionRow]) -> Result<(), NoMemory>
    ensures { OnOk result (string_bytes text.new ≡ string_bytes text.old ++ flat_map meaning.line_of rows.now) }
{
    for row in rows {
        put_row(alloc, text, row)?;
    }
    Ok(())
}

/// Adds the line of an option.
fn put_row(alloc: Global, text: &mut String, row: &OptionRow) -> Result<(), NoMemory>
    ensures { OnOk result (string_bytes text.new ≡ string_bytes text.old ++ meaning.line_of row.now) }
{
    let shown = shown(alloc, row)?;
    text.push_str(shown.as_str())?;
    put_blanks(text, WIDTH.saturating_sub(shown.len()))?;
    text.push_str(row.text)?;
    text.push_str("\n")?;
    Ok(())
}

/// An option with what stands for its value, and a blank.
fn shown(alloc: Global, row: &OptionRow) -> Result<String, NoMemory>
    ensures { IfOk result (λ text. string_bytes text ≡ meaning.shown_of row.now) }
{
    let mut text = String::new(alloc);
    text.push_str("  --")?;
    text.push_str(row.name)?;
    if let Some(value) = row.value {
        text.push_str(" ")?;
        text.push_str(value)?;
    }
    text.push_str(" ")?;
    Ok(text)
}

/// Adds so many blanks.
fn put_blanks(text: &mut String, count: usize) -> Result<(), NoMemory>
    ensures { OnOk result (string_bytes text.new ≡ string_bytes text.old ++ replicate count 32) }
{
    for _ in 0..count {
        text.push_str(" ")?;
    }
    Ok(())
}
