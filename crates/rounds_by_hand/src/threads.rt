//! Types that may go to other threads. The check proves it of these types at the calls here, of which none is made at run time. So a type
//! that ceases to be so is refused here, and not first in the crate of someone who starts threads.

use crate::hand::Hand;
use crate::handed_in::HandedIn;
use std::marker::Send;

fn goes<T: Send>(_: &T) {}

fn hand_goes<S: Send, P: Send, E: Send>(hand: &Hand<S, P, E>) {
    goes(hand)
}

fn handed_in_goes(source: &HandedIn) {
    goes(source)
}
