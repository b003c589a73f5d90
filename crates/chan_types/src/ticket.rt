//! Tickets: completed requests on their way from the channel to their callbacks.

ghost use Rattle.std.specs.Prelude.{◌≡◌};

use crate::answer::Answer;
use crate::call::Call;
use crate::token::Token;

/// A completed request that left the channel: its token, and the record of the call that its token is owed. The
/// request's number is that of the call's answer.
#[derive(Drop)]
pub struct Ticket<T: Token> {
    /// What the request was accepted with.
    pub token: T,
    /// The record of the call, with the request's answer.
    pub call: Call,
}

impl<T: Token> Ticket<T> {
    /// The ticket with this token and this call's answer. Only the channel's table makes tickets.
    pub fn of(token: T, call: Call) -> Ticket<T>
        ensures { result ≡ record { token = token; call = call } }
    {
        Ticket { token, call }
    }

    /// The request's number.
    pub fn number(&self) -> u64
        ensures { result ≡ self.now.call.number }
    {
        self.call.answer().number
    }

    /// The request's answer.
    pub fn answer(&self) -> &Answer
        ensures { result.now ≡ self.now.call }
    {
        self.call.answer()
    }

    /// The token, and the record of its call. It takes no memory.
    pub fn spend(self) -> (T, Call)
        ensures { result ≡ (self.token, self.call) }
    {
        (self.token, self.call)
    }
}
