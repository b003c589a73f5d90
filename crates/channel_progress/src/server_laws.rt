//! The law of what servers that are set at run time change. The function does nothing, and its contract is the law.

ghost use Rattle.std.specs.List.{AllByRecursion};
ghost use Rattle.std.specs.Prelude.{◌≡◌, None, []};
ghost use Rattle.channel_model.specs.Journal.{Past};
ghost use Rattle.channel_model.specs.Servers.{attempts, servers_set_by};
ghost use Rattle.channel_model.specs.Setting.{Setting};
ghost use Rattle.channel_progress.specs.Allowed.{attempts_of_leg};

/// The law that where no entry sets servers a leg may spend the tries of those in use at the beginning, and no more.
pub fn attempts_stay_where_no_servers_are_set()
    ensures { (setting : Setting) (past : Past) → AllByRecursion (λ what. servers_set_by what ≡ None) past
        → attempts_of_leg setting past ≡ attempts setting [] }
{}
