//! A reader's side.
ghost use Rattle.std.specs.Prelude.{◌≡◌, IfNone, IfSome, length};
ghost use Rattle.left_right.specs.Sides.{view};
ghost use Rattle.watched_value.specs.Latest.{latest};
ghost use Rattle.watched_value.specs.Rule.{IsPageOf};
ghost use mathlib.Core.List.{IsPrefix};

use crate::opening::Opening;
use crate::page::Page;
use crate::rule::{Looks, Telling};
use core::mem::replace_with;
use left_right::reader::Reader;
use std::alloc::Global;
use std::collections::LinkedList;
use std::marker::Model;

pub(crate) type Inner<S> = Reader<Page<S>, LinkedList<S>, Telling<S>, Global>;

/// A reader. Contracts see it as what it has seen: a beginning of what was published.
#[derive(Drop)]
pub struct Watcher<S: Opening> {
    pub(crate) reader: Inner<S>,
    pub(crate) last: Page<S>,
}

impl<S: Opening> Model for Watcher<S> {
    ghost use Rattle.std.specs.Prelude.{List};
    ghost use Rattle.watched_value.specs.Rule.{IsPageOf};

    ghost Value = { List S };

    ghost view = { λ w. w.reader.place.me.0.client };

    ghost invariant = { λ w. IsPageOf S.opening w.last w.reader.place.me.0.client };
}

impl<S: Opening> Watcher<S> {
    /// The opening value, or one that was published: never one before another that this reader has seen.
    /// It waits for nobody and takes no memory.
    pub fn show(&mut self) -> S
        ensures further { IsPrefix self.old self.new }
        ensures shown { result ≡ latest S.opening self.new }
    {
        if let Some(page) = replace_with(&mut self.reader, (), |reader, _| look(reader)) {
            self.last = page;
        }
        self.last.value
    }

    /// How many were published up to the one that it was shown last.
    pub fn count(&self) -> u64
        ensures { result ≡ length self.now }
    {
        self.last.number
    }
}

/// Takes the page that is shown, where the writer is there.
fn look<S: Opening>(reader: Inner<S>) -> (Inner<S>, Option<Page<S>>)
    ensures found { IfSome result.1 (λ page. IsPrefix (view reader.place) (view result.0.place)
        × IsPageOf S.opening page (view result.0.place)) }
    ensures none { IfNone result.1 (view result.0.place ≡ view reader.place) }
{
    match reader.enter_as::<Looks<S>>() {
        Ok(reading) => {
            let page = *reading.get();
            (reading.leave(), Some(page))
        }
        Err(reader) => (reader, None),
    }
}
