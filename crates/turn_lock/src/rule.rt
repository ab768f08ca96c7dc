// The rule of the lock's table, and what its steps tell.
use crate::kept::Kept;
use crate::view::View;
use atomic_table::{Join, Play, Split, TableRule};
use std::marker::PhantomData;

/// The rule of the turn.
pub struct Turns<B> {
    basis: PhantomData<B>,
}

impl<V: Kept<B>, B> TableRule<Option<V>, View, ()> for Turns<B> {
    ghost use Rattle.turn_lock.specs.Turns.{IsInTurn};
    ghost use Rattle.turn_lock.specs.Views.{first_view};

    ghost holds = { λ _. IsInTurn V.history V.fact };

    ghost first = { λ _. first_view };
}

/// The turn is taken where it is free, and the slot with it.
pub struct Takes<B> {
    basis: PhantomData<B>,
}

impl<V: Kept<B>, B> Play<Option<V>, View> for Takes<B> {
    ghost use Rattle.turn_lock.specs.Steps.{TakesTurn};

    ghost then = { TakesTurn V.history V.fact };
}

/// The slot goes home without the value.
pub struct Leaves;

impl<V> Play<Option<V>, View> for Leaves {
    ghost use Rattle.turn_lock.specs.Steps.{LeavesSlot};

    ghost then = { LeavesSlot };
}

/// The slot is out again.
pub struct Returns;

impl<V> Play<Option<V>, View> for Returns {
    ghost use Rattle.turn_lock.specs.Steps.{ReturnsSlot};

    ghost then = { ReturnsSlot };
}

/// The slot goes home with the value, and the turn is free.
pub struct Gives<B> {
    basis: PhantomData<B>,
}

impl<V: Kept<B>, B> Play<Option<V>, View> for Gives<B> {
    ghost use Rattle.turn_lock.specs.Steps.{GivesTurn};

    ghost then = { GivesTurn V.history };
}

/// The two lists of a joined view are compared.
pub struct Settles;

impl<V> Play<Option<V>, View> for Settles {
    ghost use Rattle.turn_lock.specs.Steps.{SettlesSeen};

    ghost then = { SettlesSeen };
}

/// The rest of the numbers goes to a new seat.
pub struct Splits;

impl Split<View> for Splits {
    ghost use Rattle.turn_lock.specs.Views.{emptied_view, split_view};

    ghost left = { emptied_view };

    ghost right = { split_view };
}

/// One seat takes in what another knows.
pub struct Joins;

impl Join<View> for Joins {
    ghost use Rattle.turn_lock.specs.Views.{joined_view, spent_view};

    ghost both = { joined_view };

    ghost spent = { spent_view };
}
