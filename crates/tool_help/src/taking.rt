//! Whether words ask something of a tool.

ghost use Rattle.std.specs.Prelude.{◌≡◌, IfOk, MatchBool, map};
ghost use Rattle.tool_help.specs.Taken as meaning;

use item_list::NoMemory;
use std::alloc::Global;
use tool_line::{Tool, WordFault, adig_ask, ahost_ask};

/// A name that is an address too.
const NAME: &str = "192.0.2.1";

/// Whether the words ask something, or do so with a name behind them.
pub fn may_stand(alloc: Global, tool: Tool, words: &[&str]) -> Result<bool, NoMemory>
    ensures { IfOk result (λ may. MatchBool may (meaning.MayStand tool (map (λ word. word.now) words.now))
        (meaning.MayStand tool (map (λ word. word.now) words.now) → ⊥)) }
{
    if are_taken(alloc, tool, words)? {
        return Ok(true);
    }
    let mut more = Vec::new(alloc);
    more.extend_from_slice(words)?;
    more.push(NAME)?;
    are_taken(alloc, tool, more.as_slice())
}

/// Whether the words ask something.
fn are_taken(alloc: Global, tool: Tool, words: &[&str]) -> Result<bool, NoMemory>
    ensures { IfOk result (λ are. MatchBool are (meaning.AreTaken tool (map (λ word. word.now) words.now))
        (meaning.AreTaken tool (map (λ word. word.now) words.now) → ⊥)) }
{
    match tool {
        Tool::Adig => are_adigs(alloc, words),
        Tool::Ahost => are_ahosts(alloc, words),
    }
}

/// Whether the words ask something of adig.
fn are_adigs(alloc: Global, words: &[&str]) -> Result<bool, NoMemory>
    ensures { IfOk result (λ are. MatchBool are (meaning.AreTaken Tool.Adig (map (λ word. word.now) words.now))
        (meaning.AreTaken Tool.Adig (map (λ word. word.now) words.now) → ⊥)) }
{
    is_taken(adig_ask(alloc, words))
}

/// Whether the words ask something of ahost.
fn are_ahosts(alloc: Global, words: &[&str]) -> Result<bool, NoMemory>
    ensures { IfOk result (λ are. MatchBool are (meaning.AreTaken Tool.Ahost (map (λ word. word.now) words.now))
        (meaning.AreTaken Tool.Ahost (map (λ word. word.now) words.now) → ⊥)) }
{
    is_taken(ahost_ask(alloc, words))
}

/// Whether something was asked.
fn is_taken<T: Drop>(asked: Result<T, WordFault>) -> Result<bool, NoMemory>
    ensures { meaning.IsTakenBy asked result }
{
    match asked {
        Ok(_) => Ok(true),
        Err(WordFault::Refused) => Ok(false),
        Err(WordFault::NoMemory) => Err(NoMemory),
    }
}
