//! The table under the lock: its rule, and the names of its steps.
ghost use Rattle.std.specs.Prelude.{Option, None};
ghost use Rattle.tt_noted.specs.inside.Rule.{IsKept, first_view, rest_of, first_of, both_of, spent, took, noted};

use crate::tie::Tie;
use atomic_table::{Join, Play, Seat, Split, Table, TableRule};
use std::alloc::Global;
use std::collections::LinkedList;
use std::marker::{Brand, PhantomData};
use std::snapshot::Snapshot;

/// What a seat at the table knows. No value of it is made.
pub struct View<S, N> {
    /// How many notes there are in all.
    pub count: u32,
    /// The notes that are the view's, each with its place among all.
    pub notes: LinkedList<(u32, N)>,
    /// Where the view is the holder's: the state as it was taken.
    pub turn: Option<S>,
}

/// How many notes there are, and what each is at first.
#[derive(Drop)]
pub struct Opening<N> {
    pub count: u32,
    pub note: Snapshot<N>,
}

/// The rule that one pass at most is the holder, and the state fits all notes.
pub struct OneHolder<T> {
    tie: PhantomData<T>,
}

pub type Slot<T> = Option<<T as Tie>::State>;

pub type Known<T> = View<<T as Tie>::State, <T as Tie>::Note>;

pub type Place<T> = Seat<Slot<T>, Known<T>>;

pub type Board<T> = Table<Slot<T>, Known<T>, Opening<<T as Tie>::Note>, OneHolder<T>, Global>;

impl<T: Tie> TableRule<Slot<T>, Known<T>, Opening<T::Note>> for OneHolder<T> {
    ghost holds = { λ o. IsKept T.fits o.count };

    ghost first = { first_view };
}

/// Word 0 goes from an even number to the next one.
pub struct Take<T> {
    tie: PhantomData<T>,
}

impl<T: Tie> Play<Slot<T>, Known<T>> for Take<T> {
    ghost then = { took T.fits };
}

/// The note that a pass leaves with. Each leave picks it.
pub trait Leaves<N> {
    ghost note: { Option N };
}

impl<N> Leaves<N> for Brand {
    ghost note = { None };
}

/// Word 0 goes from an odd number to the next one.
pub struct Note<K> {
    note: PhantomData<K>,
}

impl<S, N, K: Leaves<N>> Play<Option<S>, View<S, N>> for Note<K> {
    ghost then = { noted K.note };
}

/// The new seat gets the first note.
pub struct ByNote;

impl<S, N> Split<View<S, N>> for ByNote {
    ghost left = { rest_of };

    ghost right = { first_of };
}

impl<S, N> Join<View<S, N>> for ByNote {
    ghost both = { both_of };

    ghost spent = { spent };
}
