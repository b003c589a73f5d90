//! What a worker does with a ticket.

/// Something that spends tickets, one after the other.
pub trait Spender<T> {
    type State;

    // what contracts see of it
    ghost state: { Self → Self.State };

    // a ticket was spent, between these states
    ghost spends: { Self.State → T → Self.State → Type 0 };

    /// Spends a ticket.
    fn spend(&mut self, ticket: T)
        ensures { spends (state self.old) ticket (state self.new) };
}
