//! From which word on a command line isn't understood.

ghost use Rattle.std.specs.Prelude.{IfOk, map};
ghost use Rattle.tool_help.specs.Taken.{Stands};

use crate::taking::may_stand;
use item_list::NoMemory;
use std::alloc::Global;
use tool_line::Tool;

/// How many words in front ask something, alone or with a name behind them, where no more of them do: the word behind them
/// is the one that isn't understood. They are all the words where only a name is missing.
pub fn refused_at(alloc: Global, tool: Tool, words: &[&str]) -> Result<usize, NoMemory>
    ensures { IfOk result (Stands tool (map (λ word. word.now) words.now)) }
{
    let mut count = words.len();
    while count > 0 {
        if may_stand(alloc, tool, &words[..count])? {
            return Ok(count);
        }
        count -= 1;
    }
    Ok(0)
}
