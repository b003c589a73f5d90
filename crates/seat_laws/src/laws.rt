//! The law of callbacks that several seats call. The function does nothing, and its contract is the law.

ghost use Rattle.std.specs.Prelude.{List, length, ℕ};
ghost use Rattle.chan_types.specs.declared.journal.Entry.{Entry};
ghost use Rattle.chan_types.specs.declared.orders.Orders.{Orders};
ghost use Rattle.channel_model.specs.Commands.{ObeysOrders};
ghost use Rattle.channel_model.specs.Setting.{Setting};
ghost use Rattle.seat_laws.specs.Shifts.{AreShiftsOf, IsLostCount, Shift};

/// Where each seat did one thing after the other, each request's callback was called once, and nothing that a callback
/// commanded was performed behind the last position, the callbacks of all taken requests were obeyed by these seats; and
/// as many requests were lost as the seats counted, as far as a count goes.
pub fn callbacks_are_obeyed_by_several_seats()
    ensures { (setting : Setting) (journal : List Entry) (orders : Orders) (last : ℕ) (shifts : List Shift)
        → AreShiftsOf setting journal orders last shifts
        → (lost : ℕ) × ObeysOrders setting journal (length shifts) orders last lost × IsLostCount shifts lost }
{}
