//! The queue of a round, its rule, and what a worker knows of it. The rule and what is known exist in proofs alone.
//!
//! The right to know the whole comes in 16 parts, which are halved as workers are started and put together as
//! they end. Whoever has all parts and finds the queue empty has taken every order, so the rule doesn't depend
//! on the number of workers.
ghost use Rattle.std.specs.Prelude.{◌≡◌};

use crossbeam_queue::protocol::{Join, Lesson, Outcome, Protocol, Split};
use crossbeam_queue::{Pass, RuledArrayQueue};
use load_queue::Order;
use std::collections::LinkedList;

/// Holds what a pass knows: its parts of the right to know the whole, the round's orders, and the orders that it has taken. No value of it
/// is made.
pub struct Knowledge {
    pub parts: u64,
    pub all: LinkedList<Order>,
    pub taken: LinkedList<Order>,
}

pub struct Once;

impl Protocol<Order, Knowledge> for Once {
    ghost use Rattle.std.specs.Prelude.{[]};
    ghost use Rattle.batch_workers.specs.Desk.{knowledge, Handed};

    ghost holds = { Handed };

    ghost first = { knowledge 16 [] [] };
}

pub struct Halves;

impl Split<Knowledge> for Halves {
    ghost use Rattle.batch_workers.specs.Desk.{left_half, right_half};

    ghost left = { left_half };

    ghost right = { right_half };
}

impl Join<Knowledge> for Halves {
    ghost use Rattle.std.specs.Prelude.{[]};
    ghost use Rattle.batch_workers.specs.Desk.{knowledge, both_halves};

    ghost both = { both_halves };

    ghost spent = { knowledge 0 [] [] };
}

pub struct Put;

impl Outcome<Order, Knowledge> for Put {
    ghost use Rattle.batch_workers.specs.Desk.{Puts};

    ghost then = { Puts };
}

impl Lesson<Order, Knowledge> for Put {
    ghost use Rattle.batch_workers.specs.Desk.{Knows};

    ghost fact = { Knows };
}

pub struct TakenOrder;

impl Outcome<Order, Knowledge> for TakenOrder {
    ghost use Rattle.batch_workers.specs.Desk.{Takes};

    ghost then = { Takes };
}

impl Lesson<Order, Knowledge> for TakenOrder {
    ghost use Rattle.batch_workers.specs.Desk.{Knows};

    ghost fact = { Knows };
}

pub type Desk = RuledArrayQueue<Order, Knowledge, Once>;

pub type Worker = Pass<Order, Knowledge>;
