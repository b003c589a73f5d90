//! What is done with a message that was received.
ghost use Rattle.delivery_pool.specs.Spending.{SpendsMessage, SpendsTicket};

use crate::message::Message;
use crate::spender::Spender;

/// Spends a ticket, and answers the count of tickets with it.
pub fn spend_ticket<T: Drop, S: Spender<T>>(ticket: T, spender: &mut S, count: u64) -> u64
    ensures { SpendsTicket S.spends ticket count result (S.state spender.old) (S.state spender.new) }
{
    spender.spend(ticket);
    count.saturating_add(1)
}

/// Spends a ticket, and lets a stop go.
pub fn spend_message<T: Drop, S: Spender<T>>(
    message: Message<T>,
    spender: &mut S,
    count: u64,
) -> u64
    ensures { SpendsMessage S.spends message count result (S.state spender.old) (S.state spender.new) }
{
    match message {
        Message::Stop => count,
        Message::Ticket(ticket) => spend_ticket(ticket, spender, count),
    }
}
