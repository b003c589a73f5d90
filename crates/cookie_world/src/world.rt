//! A World around a World, with DNS cookies over UDP.

ghost use Rattle.std.specs.Prelude.{◌≡◌};
ghost use Rattle.cookie_world.specs.State.{at_start};
ghost use Rattle.cookie_world.specs.Agreement.{Stands};

use crate::counted::CountedWorld;
use crate::passing::{close_with, connect_with, now_with, wait_with, word_with, write_with};
use crate::receiving::receive_with;
use crate::sending::send_with;
use crate::serving::serve_with;
use crate::state::Kept;
use indexmap::IndexMap;
use item_list::{ItemList, NoMemory};
use net_addr::ServerAddr;
use net_world::{Got, Sent, Waited, World, WorldCall, Wrote};
use std::alloc::Global;
use std::marker::Model;

/// A World around a World, with DNS cookies over UDP (RFC 7873). It draws a client cookie for each server, adds it to the
/// queries that can carry one, learns the server's cookie of the replies, and hands on a datagram that is dropped as one
/// without a byte. Calls of links go through as they are.
#[derive(Drop)]
pub struct CookieWorld<W: World + Drop> {
    inner: CountedWorld<W>,
    kept: Kept,
}

impl<W: World + Drop> Model for CookieWorld<W> {
    ghost use Rattle.cookie_world.specs.View.{CookieView};

    ghost Value = { CookieView W };

    ghost use Rattle.cookie_world.specs.State.{state_of};
    ghost use Rattle.cookie_world.specs.Agreement.{Stands};
    ghost use Rattle.cookie_world.specs.Begun.{calls_ago};

    ghost view = { λ c. record {
      inner = c.inner.world;
      began = calls_ago c.inner.calls (W.log c.inner.world);
      state = state_of c.kept;
    } };

    ghost invariant = { λ c. Stands (calls_ago c.inner.calls (W.log c.inner.world)) (W.log c.inner.world) (state_of c.kept) };
}

impl<W: World + Drop> CookieWorld<W> {
    /// A World with cookies around this one, before its first call. It takes no memory.
    pub fn make(alloc: Global, inner: W) -> CookieWorld<W>
        ensures inner { result.inner ≡ inner }
        ensures began { result.began ≡ W.log inner }
        ensures state { result.state ≡ at_start }
    {
        CookieWorld {
            inner: CountedWorld {
                world: inner,
                calls: 0,
            },
            kept: Kept {
                alloc,
                peers: Vec::new(alloc),
                queries: IndexMap::new(alloc),
                held: None,
                spare: Vec::new(alloc),
                failures: 0,
                log: Vec::new(alloc),
            },
        }
    }

    /// The World that it stood around, and all its own calls with their answers.
    pub fn parts(self) -> (W, ItemList<WorldCall>)
        ensures inner { result.0 ≡ self.inner }
        ensures log { result.1 ≡ self.state.log }
        ensures agree { Stands self.began (W.log self.inner) self.state }
    {
        let CookieWorld { inner, kept } = self;
        (inner.world, ItemList::from_vec(kept.log))
    }
}

impl<W: World + Drop> World for CookieWorld<W> {
    ghost use Rattle.std.specs.Prelude.{None, option_map};
    ghost use Rattle.cookie_world.specs.Begun.{begun_origin};

    ghost log = { λ c. option_map (λ _. c.state.log) (W.log c.inner) };

    ghost items = { λ _. None };

    ghost faults = { λ c. c.state.failures };

    ghost wait_faults = { λ c. W.wait_faults c.inner };

    ghost reading = { λ c. W.reading c.inner };

    ghost origin = { λ c. begun_origin (W.origin c.inner) c.began };

    fn serve(&mut self, server: u32, address: &ServerAddr) -> Result<(), NoMemory> {
        serve_with(&mut self.inner, &mut self.kept, server, address)
    }

    fn now(&mut self) -> Result<u64, NoMemory> {
        now_with(&mut self.inner, &mut self.kept)
    }

    fn word(&mut self) -> Result<u16, NoMemory> {
        word_with(&mut self.inner, &mut self.kept)
    }

    fn send(&mut self, server: u32, bytes: &[u8]) -> Result<Sent, NoMemory> {
        send_with(&mut self.inner, &mut self.kept, server, bytes)
    }

    fn connect(&mut self, server: u32, link: u64) -> Result<Sent, NoMemory> {
        connect_with(&mut self.inner, &mut self.kept, server, link)
    }

    fn write(&mut self, link: u64, bytes: &[u8]) -> Result<Wrote, NoMemory> {
        write_with(&mut self.inner, &mut self.kept, link, bytes)
    }

    fn receive(&mut self) -> Result<Got, NoMemory> {
        receive_with(&mut self.inner, &mut self.kept)
    }

    fn close(&mut self, link: u64) -> Result<(), NoMemory> {
        close_with(&mut self.inner, &mut self.kept, link)
    }

    fn wait(&mut self, until: u64) -> Result<Waited, NoMemory> {
        wait_with(&mut self.inner, &mut self.kept, until)
    }
}
