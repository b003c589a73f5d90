//! The rule over the page that is shown, and the kinds of step under it. None of this exists at run time.

use crate::opening::Opening;
use crate::page::Page;
use atomic_table::{Join, Split};
use crossbeam_utils::rule::{Outcome, Protocol};
use std::collections::LinkedList;
use std::marker::PhantomData;

/// The page that is shown is the last of what was published, of which each side knows a beginning.
pub(crate) struct Telling<S> {
    of: PhantomData<S>,
}

impl<S: Opening> Protocol<Page<S>, LinkedList<S>> for Telling<S> {
    ghost use Rattle.std.specs.Prelude.{[]};
    ghost use Rattle.watched_value.specs.Rule.{IsTold};

    ghost holds = { IsTold S.opening };

    ghost first = { [] };
}

/// The writer publishes one value more.
pub(crate) struct Adds<S> {
    of: PhantomData<S>,
}

impl<S: Opening> Outcome<Page<S>, LinkedList<S>> for Adds<S> {
    ghost use Rattle.std.specs.Prelude.{◌≡◌, ◌++◌, ◌∷◌, []};

    ghost then = { λ known before after next. next ≡ known ++ after.value ∷ [] };
}

/// A reader looks.
pub(crate) struct Looks<S> {
    of: PhantomData<S>,
}

impl<S: Opening> Outcome<Page<S>, LinkedList<S>> for Looks<S> {
    ghost use mathlib.Core.List.{IsPrefix};
    ghost use Rattle.watched_value.specs.Rule.{IsPageOf};

    ghost then = { λ known before after next. IsPrefix known next × IsPageOf S.opening after next };
}

/// The writer tells what it has published.
pub(crate) struct Tells<S> {
    of: PhantomData<S>,
}

impl<S> Split<LinkedList<S>> for Tells<S> {
    ghost left = { λ known. known };

    ghost right = { λ known. known };
}

/// A reader hears it.
pub(crate) struct Hears<S> {
    of: PhantomData<S>,
}

impl<S> Join<LinkedList<S>> for Hears<S> {
    ghost use Rattle.std.specs.Prelude.{[]};

    ghost both = { λ known note. note };

    ghost spent = { [] };
}
