//! What the words of a command line order the server to do.

ghost use Rattle.std.specs.Prelude.{◌≡◌, ◌↔◌, ℕ, codes, map, IsTrue, Some, IfSome, option_map};
ghost use Rattle.test_nameserver.specs.Order.{IsNumber, Order, Orders, line_of, order_seen};

use crate::words::number_up_to;

/// What a command line orders: the port to listen on, the path of the zone's file, and how many messages are taken.
#[derive(Clone, Copy)]
pub(crate) struct Ordered<'a> {
    pub(crate) port: u16,
    pub(crate) path: &'a str,
    pub(crate) count: u16,
}

/// What the words order: exactly `--port N --zone PATH --count N`. None where they aren't of that form.
pub(crate) fn read_words<'a>(words: &[&'a str]) -> Option<Ordered<'a>>
    ensures found { IfSome result (λ order. Orders (map (λ word. word.now) words.now)
        (order_seen order)) }
    ensures only { (order : Order) → Orders (map (λ word. word.now) words.now) order
        → option_map order_seen result ≡ Some order }
{
    let [port_option, port, zone_option, path, count_option, count] = words else {
        return None;
    };
    if !are_options(port_option, zone_option, count_option) {
        return None;
    }
    order_of(port, path, count)
}

/// What a line with these values orders.
fn order_of<'a>(port: &str, path: &'a str, count: &str) -> Option<Ordered<'a>>
    ensures found { IfSome result (λ order. Orders (line_of port.now path.now count.now)
        (order_seen order)) }
    ensures only { (order : Order) → Orders (line_of port.now path.now count.now) order
        → option_map order_seen result ≡ Some order }
{
    if path.is_empty() {
        return None;
    }
    let port = number_in(port)?;
    let count = number_in(count)?;
    Some(Ordered { port, path, count })
}

/// Whether these words are the options, in this order.
fn are_options(port: &str, zone: &str, count: &str) -> bool
    ensures { IsTrue result ↔ ((port.now ≡ codes "--port") × (zone.now ≡ codes "--zone")
        × (count.now ≡ codes "--count")) }
{
    is_port_option(port) && is_zone_option(zone) && is_count_option(count)
}

/// Whether the word is the option that names the port.
fn is_port_option(word: &str) -> bool
    ensures { IsTrue result ↔ (word.now ≡ codes "--port") }
{
    word == "--port"
}

/// Whether the word is the option that names the zone's file.
fn is_zone_option(word: &str) -> bool
    ensures { IsTrue result ↔ (word.now ≡ codes "--zone") }
{
    word == "--zone"
}

/// Whether the word is the option that counts the messages.
fn is_count_option(word: &str) -> bool
    ensures { IsTrue result ↔ (word.now ≡ codes "--count") }
{
    word == "--count"
}

/// The number from 1 to 65535 that a word is.
fn number_in(word: &str) -> Option<u16>
    ensures found { IfSome result (λ number. IsNumber word.now number) }
    ensures only { (number : ℕ) → IsNumber word.now number → result ≡ Some number }
{
    match number_up_to(65_535, word.as_bytes()) {
        Some(0) | None => None,
        Some(number) => Some(number as u16),
    }
}
