//! The bodies of a run's callbacks: where they wait until they are asked, and where they come back to.

ghost use Rattle.std.specs.Prelude.{◌≡◌, ◌≢◌, ◌++◌, [], filter_map};
ghost use Rattle.owner_session.specs.Returning.{GivesBack, PutsBack, TakesNext};

use completion_ticket::{Called, Done};
use item_list::NoMemory;
use std::alloc::Global;
use std::collections::VecDeque;
use std::marker::Model;

/// A place for each request that the run asked, in order, where its body is put once it was told; and the bodies that aren't
/// asked. There is always room for all of them, so that they come back in any case.
#[derive(Drop)]
pub(crate) struct Places<B: Done + Drop> {
    back: Vec<Option<B>>,
    rest: VecDeque<B>,
}

impl<B: Done + Drop> Model for Places<B> {
    ghost use Rattle.std.specs.Prelude.{◌+◌, ◌≤◌};
    ghost use Rattle.std.specs.Vec.{vec_len};
    ghost use Rattle.std.specs.VecDeque.{deque_capacity, deque_len};
    ghost use Rattle.owner_session.specs.Places.{PlacesState};

    ghost Value = { PlacesState B };

    ghost view = { λ places. record { back = places.back.items; rest = places.rest.items } };

    ghost invariant = { λ places. deque_len places.rest + vec_len places.back ≤ deque_capacity places.rest };
}

impl<B: Done + Drop> Places<B> {
    /// Bodies none of which is asked yet. It takes no memory.
    pub fn of(alloc: Global, bodies: Vec<B>) -> Places<B>
        ensures { result ≡ record { back = []; rest = bodies.items } }
    {
        Places {
            back: Vec::new(alloc),
            rest: VecDeque::from_vec(bodies),
        }
    }

    /// Takes out the next body, and makes its place, which is the last one.
    pub fn next(&mut self) -> Result<Option<B>, NoMemory>
        ensures { TakesNext result self.old self.new }
    {
        if self.rest.is_empty() {
            return Ok(None);
        }
        self.back.push(None)?;
        Ok(self.rest.pop_front())
    }

    /// Gives back the body that was taken out last: its place is there no more, and it is the next one again. It takes no
    /// memory.
    pub fn give_back(&mut self, body: B)
        requires { self.old.back ≢ [] }
        ensures { GivesBack body self.old self.new }
    {
        self.back.pop();
        self.rest.push_front_reserved(body);
    }

    /// Puts the body of a callback that was called into the place of its request, if it has one there: the first request's
    /// number is 1.
    pub fn put(&mut self, called: Called<B>)
        ensures { PutsBack B.name B.told called self.old self.new }
    {
        let index = called.number().saturating_sub(1) as usize;
        let body = called.into_body();
        if index < self.back.len() {
            self.back[index] = body;
        }
    }

    /// All the bodies, in the order in which they were given: those that came back, and those that weren't asked. It takes no
    /// memory.
    pub fn into_bodies(self) -> Vec<B>
        ensures { result.items ≡ filter_map (λ place. place) self.back ++ self.rest }
    {
        let Places { back, rest } = self;
        let mut places = back;
        let mut bodies = rest;
        while let Some(place) = places.pop() {
            if let Some(body) = place {
                bodies.push_front_reserved(body);
            }
        }
        bodies.into_vec()
    }
}
