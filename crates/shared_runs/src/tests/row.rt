//! A request and the moves behind it, through the one pass of a channel.

ghost use Rattle.std.specs.Prelude.{◌≡◌};
ghost use Rattle.shared_channel.specs.Staying.{StaysSettled};

use super::calls::asked;
use super::ending::ended;
use super::moves::{Move, play};
use super::telling::Played;
use chan_types::{NoMemory, Script, Spec};
use completion_ticket::Scripted;
use shared_channel::{Channel, Pass, Place, last_pass, plain_channel};
use std::alloc::Global;
use std::sync::Wait;

/// A request with its callback's script, and the moves that are made behind it.
#[derive(Drop)]
pub struct Row<'a> {
    pub spec: Spec,
    pub script: Script,
    pub moves: &'a [Move],
}

/// Asks the request of a row, and makes its moves. Tells what each answered.
#[tactic(auto, using(shared_channel::proofs::Theorems::stays_more))]
fn play_row<R: Wait>(
    place: &mut Place<'_, Scripted, R>,
    alloc: Global,
    row: Row<'_>,
) -> Result<Vec<u64>, NoMemory>
    ensures { StaysSettled place.old place.new }
{
    let Row {
        spec,
        script,
        moves,
    } = row;
    asked(place, spec, script);
    play(place, alloc, moves)
}

/// Plays a row through a pass.
fn played_row<R: Wait>(
    rt: &R,
    channel: &Channel<Scripted>,
    pass: Pass<Scripted>,
    alloc: Global,
    row: Row<'_>,
) -> (Pass<Scripted>, Result<Vec<u64>, NoMemory>)
    requires { pass.lock ≡ channel.now }
    ensures { StaysSettled pass result.0 }
{
    let mut place = channel.place(rt, pass);
    let told = play_row(&mut place, alloc, row);
    (place.leave(), told)
}

/// Plays a row through the one pass of a channel. Tells what each move answered, and what is left of the channel.
pub fn played_alone<R: Wait>(rt: &R, alloc: Global, row: Row<'_>) -> Result<Played, NoMemory> {
    let (channel, mut passes) = plain_channel(alloc, 1)?;
    let pass = last_pass(&channel, &mut passes);
    let (pass, told) = played_row(rt, &channel, pass, alloc, row);
    passes.push_reserved(pass);
    let finished = ended(rt, channel, passes);
    Ok(Played {
        told: told?,
        finished,
    })
}
