//! The law of adig's stored runs. The function takes no memory and answers nothing: its contract is the law.

ghost use Rattle.std.specs.Prelude.{◌≡◌, Ok, true, ℕ};
ghost use Rattle.adig_tool.specs.Cookies.{own_end};
ghost use Rattle.adig_tool.specs.Output.{book_of};
ghost use Rattle.adig_tool.specs.Running.{IsRunFor, setting_with};
ghost use Rattle.journal_laws.specs.Telling.{HasPut, IsWithinLimits, PutsRun};
ghost use Rattle.tool_line.specs.Files.{options_set};
ghost use Rattle.tool_line.specs.Outside.{FilesTold, Outside};
ghost use Rattle.tool_line.specs.declared.adig.AdigAsk.{AdigAsk};

use crate::fitting::run_fits;
use adig_tool::Ended;
use resolv_options::Options;

/// The law that a run of `adig --journal` which puts its text whole puts a text that tells the run: of these options,
/// which are those that resolv.conf and the words set, with no hosts file and the journal that the run came to. It is so
/// of runs with cookies too, each of which is one over a network with cookies.
pub fn adig_books_tell_their_runs(options: &Options, ended: &Ended)
    ensures { (ask : AdigAsk) (turns : ℕ) (files_before files_after : FilesTold) (before after : Outside)
        → (run : IsRunFor ask turns (own_end ended.now) files_before files_after before after)
        → ask.journal ≡ true → options_set ask.settings run.file ≡ Ok options.now → HasPut ended.now.status
        → IsWithinLimits (book_of (setting_with options.now) ended.now.journal)
        → PutsRun (book_of (setting_with options.now) ended.now.journal)
        ended.now.calls before.output after.output }
{
    run_fits(options, &[], &ended.journal);
}
