//! What readers take: a value with its number.
use left_right::Absorb;
use std::alloc::AllocError;

/// A value, and how many were published up to it. The number tells the writer, who knows the page that is shown, that it
/// knows all that was published.
#[derive(Clone, Copy)]
pub struct Page<S: Copy> {
    pub value: S,
    pub number: u64,
}

impl<S: Copy> Absorb<Page<S>> for Page<S> {
    type State = Page<S>;

    ghost state = { λ page. page };

    ghost applied = { λ page next. next };

    ghost never_fails = { Unit {0} };

    fn absorb_first(&mut self, operation: &Page<S>, _other: &Page<S>) -> Result<(), AllocError> {
        *self = *operation;
        Ok(())
    }
}
