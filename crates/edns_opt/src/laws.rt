//! A law on what an OPT record says: the function does nothing, and its contract is the law.

ghost use Rattle.std.specs.Prelude.{◌≡◌, MatchResult, Option, Ok};
ghost use Rattle.std.specs.List.{AllByRecursion};
ghost use Rattle.dns_message.specs.declared.message.Message.{Message};
ghost use Rattle.edns_opt.specs.declared.opt.Opt.{Opt};
ghost use Rattle.edns_opt.specs.declared.fault.EdnsFault.{EdnsFault};
ghost use Rattle.edns_opt.specs.Opt.{FitsRecord, IsOptOf, HasCause};
ghost use Rattle.edns_opt.specs.Reading.{EndsWith, opt_of};

/// What a message's OPT record says is what is computed, each fault is the one that is computed, and what is computed is
/// one of the two.
pub fn opt_is_computed()
    ensures found { (message : Message) (found : Option Opt) → IsOptOf message found
        → opt_of message ≡ Ok found }
    ensures cause { (message : Message) (fault : EdnsFault) → AllByRecursion FitsRecord message.additionals
        → HasCause message fault → EndsWith fault (opt_of message) }
    ensures either { (message : Message) → AllByRecursion FitsRecord message.additionals
        → MatchResult (opt_of message) (IsOptOf message) (HasCause message) }
{}
