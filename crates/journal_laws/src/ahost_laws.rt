//! The law of ahost's stored runs. The function takes no memory and answers nothing: its contract is the law.

ghost use Rattle.std.specs.Prelude.{◌≡◌, List, Ok, true, ℕ};
ghost use Rattle.ahost_tool.specs.Running.{IsRunFor};
ghost use Rattle.ahost_tool.specs.Setting.{hosts_bytes};
ghost use Rattle.chan_types.specs.Plans.{Plan};
ghost use Rattle.hosts_file.specs.declared.hosts.HostLine.{HostLine};
ghost use Rattle.journal_laws.specs.Telling.{HasPut, IsWithinLimits, PutsRun};
ghost use Rattle.tool_line.specs.Outside.{FilesTold, Outside};
ghost use Rattle.tool_line.specs.declared.ahost.AhostAsk.{AhostAsk};

use crate::fitting::run_fits;
use resolv_options::Options;
use run_end::Ended;

/// The law that a run of `ahost --journal` which puts its text whole puts a text that tells the run: of these options,
/// which are those that resolv.conf and the words set, of a hosts file of these bytes, which are those that were read, and
/// the journal that the run came to.
pub fn ahost_books_tell_their_runs(options: &Options, hosts: &[u8], ended: &Ended)
    ensures { (ask : AhostAsk) (plans : List Plan) (turns : ℕ) (files_before files_after : FilesTold)
        (before after : Outside) (lines : List HostLine)
        → (run : IsRunFor ask plans turns ended.now files_before files_after before after)
        → ask.journal ≡ true → run.setting ≡ Ok (options.now, lines) → hosts_bytes run.reads ≡ hosts.now
        → HasPut ended.now.status
        → IsWithinLimits (record { options = options.now; hosts = hosts.now; journal = ended.now.journal })
        → PutsRun (record { options = options.now; hosts = hosts.now; journal = ended.now.journal })
        ended.now.calls before.output after.output }
{
    run_fits(options, hosts, &ended.journal);
}
