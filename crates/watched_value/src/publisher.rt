//! The writer's side.
ghost use Rattle.std.specs.Prelude.{◌≡◌, ◌+◌, ◌-◌, ◌^◌, ◌<◌, ◌≤◌, ◌++◌, ◌∷◌, [], Err, drop, length, IfOk, MatchBool, OnErr, OnOk};
ghost use Rattle.left_right.specs.Sides.{view};
ghost use Rattle.watched_value.specs.Latest.{latest};
ghost use Rattle.watched_value.specs.Rule.{IsPageOf};

use crate::opening::Opening;
use crate::page::Page;
use crate::rule::{Adds, Hears, Telling, Tells};
use crate::watcher::{Inner as InnerWatcher, Watcher};
use core::mem::replace_with;
use left_right::Absorb;
use left_right::writer::Writer;
use std::alloc::{AllocError, Global};
use std::collections::LinkedList;
use std::marker::Model;
use std::sync::Wait;

type Inner<S> = Writer<Page<S>, Page<S>, LinkedList<S>, Telling<S>, Global>;

/// Why a value wasn't published.
#[derive(Clone, Copy, Debug, PartialEq, Eq)]
pub enum PublishFault {
    /// There was no memory.
    NoMemory,
    /// As many were published as a count goes.
    Full,
}

/// The right to publish. Contracts see it as the list of what was published. It can't be dropped: `close` ends it.
pub struct Publisher<S: Opening>
where
    Page<S>: Absorb<Page<S>, State = Page<S>>,
{
    pub(crate) writer: Inner<S>,
}

impl<S: Opening> Model for Publisher<S>
where
    Page<S>: Absorb<Page<S>, State = Page<S>>,
{
    ghost use Rattle.std.specs.Prelude.{◌≡◌, [], drop, List};
    ghost use Rattle.watched_value.specs.Rule.{IsPageOf};

    ghost Value = { List S };

    ghost view = { λ p. p.writer.desk.place.me.0.client };

    ghost invariant = { λ p. IsPageOf S.opening p.writer.desk.shown.value p.writer.desk.place.me.0.client
        × (drop p.writer.behind p.writer.log.items ≡ []) };
}

impl<S: Opening> Publisher<S> {
    /// Nothing is published yet, and there is room for so many readers at once.
    pub fn make(alloc: Global, readers: usize) -> Result<Publisher<S>, AllocError>
        requires { (0 < readers) × (readers < 2 ^ 32) }
        ensures { IfOk result (λ publisher. publisher ≡ []) }
    {
        let first = Page {
            value: S::opening(),
            number: 0,
        };
        let writer = Writer::new(alloc, first, first, readers)?;
        Ok(Publisher { writer })
    }

    /// A reader, which has seen all that was published so far; or none, where each place for a reader is in use.
    pub fn watcher(&mut self) -> Result<Watcher<S>, AllocError>
        ensures same { self.new ≡ self.old }
        ensures seen { IfOk result (λ watcher. watcher ≡ self.old) }
    {
        let last = *self.writer.published();
        let reader = begin(&mut self.writer)?;
        Ok(Watcher { reader, last })
    }

    /// Puts a reader that has seen all that was published so far in this one's place. Answers false, and leaves the old one,
    /// where each other place for a reader is in use.
    pub fn catch_up(&mut self, watcher: &mut Watcher<S>) -> bool
        ensures same { self.new ≡ self.old }
        ensures seen { MatchBool result (watcher.new ≡ self.old) (watcher.new ≡ watcher.old) }
        ensures count { length watcher.old ≤ length watcher.new }
    {
        match self.watcher() {
            Ok(fresh) if fresh.count() >= watcher.count() => {
                *watcher = fresh;
                true
            }
            _ => false,
        }
    }

    /// What was published last.
    pub fn last(&self) -> S
        ensures { result ≡ latest S.opening self.now }
    {
        self.writer.published().value
    }

    /// How many were published.
    pub fn count(&self) -> u64
        ensures { result ≡ length self.now }
    {
        self.writer.published().number
    }

    /// Publishes a value, or leaves the last one. It waits for those who are looking.
    pub fn publish<R: Wait>(&mut self, rt: &R, value: S) -> Result<(), PublishFault>
        ensures ok { OnOk result (self.new ≡ self.old ++ value ∷ []) }
        ensures err { OnErr result (self.new ≡ self.old) }
        ensures full { result ≡ Err PublishFault.Full → length self.old ≡ 2 ^ 64 - 1 }
    {
        let number = self.count();
        if number == u64::MAX {
            return Err(PublishFault::Full);
        }
        let page = Page {
            value,
            number: number + 1,
        };
        if replace_with(
            &mut self.writer,
            page,
            |writer, page| show(rt, writer, page),
        ) {
            Ok(())
        } else {
            Err(PublishFault::NoMemory)
        }
    }

    /// The end of it. It waits for those who are looking. From then on each reader is shown what it has seen last.
    pub fn close<R: Wait>(self, rt: &R) {
        let Publisher { writer } = self;
        writer.take(rt);
    }
}

/// Shows readers one more page, which is the next after the one that is shown. Answers whether there was memory.
fn show<S: Opening, R: Wait>(rt: &R, writer: Inner<S>, page: Page<S>) -> (Inner<S>, bool)
    requires whole { IsPageOf S.opening writer.desk.shown.value (view writer.desk.place) }
    requires none { drop writer.behind writer.log.items ≡ [] }
    requires next { page.number ≡ writer.desk.shown.value.number + 1 }
    ensures whole { IsPageOf S.opening result.0.desk.shown.value (view result.0.desk.place) }
    ensures none { drop result.0.behind result.0.log.items ≡ [] }
    ensures list { MatchBool result.1 ((view result.0.desk.place) ≡ (view writer.desk.place) ++ page.value ∷ [])
        ((view result.0.desk.place) ≡ (view writer.desk.place)) }
{
    let mut writer = writer;
    match writer.append(page) {
        Ok(()) => {
            let (writer, _shown) = writer.publish_as::<Adds<S>, R>(rt);
            (writer, true)
        }
        Err(_) => (writer, false),
    }
}

/// Makes a reader that knows what the writer knows.
fn begin<S: Opening>(writer: &mut Inner<S>) -> Result<InnerWatcher<S>, AllocError>
    ensures shown { writer.new.desk.shown ≡ writer.old.desk.shown }
    ensures none { drop writer.new.behind writer.new.log.items ≡ drop writer.old.behind writer.old.log.items }
    ensures view { view writer.new.desk.place ≡ view writer.old.desk.place }
    ensures knows { IfOk result (λ reader. view reader.place ≡ view writer.old.desk.place) }
{
    let mut reader = writer.factory().reader()?;
    reader.learn::<Hears<S>>(writer.tell::<Tells<S>>());
    Ok(reader)
}
