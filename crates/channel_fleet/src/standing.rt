//! Helms with their networks: a stand for each, and the helms again.

ghost use Rattle.std.specs.Prelude.{◌≡◌, ◌≤◌, [], map, vec_capacity, vec_len};

use crate::helm::Helm;
use crate::stand::Stand;
use channel_journal::ChannelJournal;
use completion_ticket::Done;

/// A stand for each of these helms, in order, with the network that it is to use. There is room for them. Of the helms' list
/// the room is left.
pub fn take_stands<B: Done + Drop, W: Drop, J: ChannelJournal>(
    helms: &mut Vec<Helm<B, J>>,
    worlds: Vec<W>,
    stands: Vec<Stand<B, W, J>>,
) -> Vec<Stand<B, W, J>>
    requires as_many { vec_len worlds ≡ vec_len helms.old }
    requires none { stands.items ≡ [] }
    requires room { vec_len helms.old ≤ vec_capacity stands }
    ensures helms { map (λ stand. stand.helm) result.items ≡ helms.old.items }
    ensures worlds { map (λ stand. stand.world) result.items ≡ worlds.items }
    ensures left { (helms.new.items ≡ []) × (vec_capacity helms.new ≡ vec_capacity helms.old) }
{
    let mut stands = stands;
    for world in worlds {
        stands.push_reserved(Stand::new(helms.remove(0), world));
    }
    stands
}

/// The helms of these stands, in order, where there is room for them.
pub fn leave_stands<B: Done + Drop, W: Drop, J: ChannelJournal>(
    stands: Vec<Stand<B, W, J>>,
    helms: &mut Vec<Helm<B, J>>,
)
    requires none { helms.old.items ≡ [] }
    requires room { vec_len stands ≤ vec_capacity helms.old }
    ensures { helms.new.items ≡ map (λ stand. stand.helm) stands.items }
{
    let mut stands = stands;
    while !stands.is_empty() {
        let (helm, _, _) = stands.remove(0).into_parts();
        helms.push_reserved(helm);
    }
    stands.destroy_empty();
}
