//! A law on the rules of judging: the function does nothing, and its contract is the law.

ghost use Rattle.std.specs.Prelude.{Bool, List, ℕ};
ghost use Rattle.dns_cookie.specs.Judging.{AreRules};
ghost use Rattle.dns_cookie.specs.declared.judging.Way.{Way};
ghost use Rattle.dns_cookie.specs.declared.reply.CookieReply.{CookieReply};

/// A reply that isn't dropped carries the client cookie, or has no cookie while no server cookie is known, or its query went
/// without a cookie or not at all; and a query is sent again once at most, and only where a reply asks so.
pub fn handed_on_has_a_reason()
    ensures { (way : Way) (client : List ℕ) (known : Bool) (reply : CookieReply) → AreRules way client known reply }
{}
