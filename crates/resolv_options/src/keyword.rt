//! What a line of resolv.conf is for.

ghost use Rattle.std.specs.Prelude.{◌≡◌};
ghost use Rattle.resolv_options.specs.Keywords as keywords;

/// What a line of resolv.conf is for (resolv.conf(5)).
#[derive(Clone, Copy)]
pub(crate) enum Keyword {
    /// A server to ask.
    Nameserver,
    /// The one domain of the search list.
    Domain,
    /// The domains of the search list.
    Search,
    /// Options, a word each.
    Options,
    /// Something else, which is passed over.
    Other,
}

/// What a line is for that begins with this word.
pub(crate) fn keyword_of(word: &[u8]) -> Keyword
    ensures { result ≡ keywords.keyword_of word.now }
{
    if word == b"nameserver".as_slice() {
        return Keyword::Nameserver;
    }
    if word == b"domain".as_slice() {
        return Keyword::Domain;
    }
    if word == b"search".as_slice() {
        return Keyword::Search;
    }
    if word == b"options".as_slice() {
        return Keyword::Options;
    }
    Keyword::Other
}
