use crate::view::View;
use std::marker::Model;
use store_core::RangeStore;
use version_log::Log;

// A seat at the table under the lock. It has no bytes.
pub(crate) type TableSeat<S> = atomic_table::Seat<Option<Log<S>>, View>;

/// What a thread calls the lock with. Contracts see which lock it is of, and its view.
#[derive(Drop)]
pub struct Seat<S: RangeStore> {
    pub(crate) place: TableSeat<S>,
    pub(crate) writer: Option<u32>,
}

impl<S: RangeStore> Model for Seat<S> {
    ghost use Rattle.std.specs.Prelude.{◌≡◌};
    ghost use Rattle.version_lock.specs.Seats.{SeatState, seat_state};
    ghost use Rattle.version_lock.specs.Calls.{IsReady};

    ghost Value = { SeatState };

    ghost view = { λ s. seat_state s.place.table_id s.place.me.0 };

    ghost invariant = { λ s. (s.writer ≡ s.place.me.0.writer) × IsReady s.place.table_id s.place };
}
