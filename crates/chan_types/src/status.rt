//! How a request ended: the statuses of c-ares that a request can end with, with their codes and names.

ghost use Rattle.std.specs.Prelude.{◌≡◌};
ghost use Rattle.chan_types.specs.Statuses.{code_of, text_of};

/// How a request ended (c-ares, ares_strerror(3) and ares.h; the codes are c-ares's own).
#[derive(Clone, Copy, Debug, PartialEq, Eq)]
pub enum Status {
    /// A good end.
    Success,
    /// The name has no record of the kind.
    NoData,
    /// A server couldn't read the query (RCODE 1).
    FormErr,
    /// A server failed (RCODE 2).
    ServFail,
    /// There is no such name (RCODE 3), or a rule of this channel says so without a query.
    NotFound,
    /// A server doesn't do this kind of query (RCODE 4).
    NotImp,
    /// A server refused the query (RCODE 5).
    Refused,
    /// The text is no name.
    BadName,
    /// A reply with any other response code.
    BadResp,
    /// The link to the server failed or ended.
    ConnRefused,
    /// No reply came in time.
    TimedOut,
    /// The channel was destroyed.
    Destruction,
    /// The request was cancelled.
    Cancelled,
}

impl Status {
    /// The number that c-ares gives this status.
    pub fn code(self) -> u8
        ensures { result ≡ code_of self }
    {
        match self {
            Status::Success => 0,
            Status::NoData => 1,
            Status::FormErr => 2,
            Status::ServFail => 3,
            Status::NotFound => 4,
            Status::NotImp => 5,
            Status::Refused => 6,
            Status::BadName => 8,
            Status::BadResp => 10,
            Status::ConnRefused => 11,
            Status::TimedOut => 12,
            Status::Destruction => 16,
            Status::Cancelled => 24,
        }
    }

    /// The name that c-ares gives this status, without its prefix `ARES_`.
    pub fn text(self) -> &'static str
        ensures { result.now ≡ text_of self }
    {
        match self {
            Status::Success => "SUCCESS",
            Status::NoData => "ENODATA",
            Status::FormErr => "EFORMERR",
            Status::ServFail => "ESERVFAIL",
            Status::NotFound => "ENOTFOUND",
            Status::NotImp => "ENOTIMP",
            Status::Refused => "EREFUSED",
            Status::BadName => "EBADNAME",
            Status::BadResp => "EBADRESP",
            Status::ConnRefused => "ECONNREFUSED",
            Status::TimedOut => "ETIMEOUT",
            Status::Destruction => "EDESTRUCTION",
            Status::Cancelled => "ECANCELLED",
        }
    }
}
