//! Totals, which are executed: the total of the orders of a customer's friends.

ghost use Rattle.std.specs.Prelude.{◌≡◌, ◌≤◌, length, IfOk, ⊤, string_bytes, codes};
ghost use Rattle.load_memory.specs.Rows.{cell_of};
ghost use Rattle.example_totals.specs.Totals.{amount_of, sum_of, friend_total, friend_totals, friends_total, total_of_friends, total_text};
ghost use Rattle.example_totals.specs.Found.{found_of, both, IsFound, AreFound};

use crate::look_up::look_up;
use crate::shop::{FRIENDS_OF, ORDERS_OF};
use execution::{Execute, ExecutionResult};
use futures::task::Poll;
use load_memory::{Cell, Memory, Outcome, Row};
use load_queue::Wants;
use std::alloc::{AllocError, Global};

/// The total of the orders of a customer's friends: the friends are one load, and each friend's orders are one.
#[derive(Drop)]
pub struct FriendsTotal {
    /// The customer's id.
    pub customer: String,
}

/// Progress of an execution: nothing is kept, so each call starts from the memory.
#[derive(Clone, Copy)]
pub struct Anew;

/// Value of a part of the total.
#[derive(Clone, Copy)]
enum Found<'m> {
    /// Something that it needs isn't known.
    Missing,
    Number(u64),
    /// Reason why it has no number.
    Fault(&'m str),
}

impl<'m> Found<'m> {
    /// Both parts together: what is missing in either is missing, the first fault counts, and numbers are added.
    fn and(self, later: Found<'m>) -> Result<Found<'m>, AllocError>
        ensures { IfOk result (λ found.
            found_of found ≡ both (found_of self.entry) (found_of later.entry)) }
    {
        match (self, later) {
            (Found::Missing, _) | (_, Found::Missing) => Ok(Found::Missing),
            (Found::Fault(text), _) | (_, Found::Fault(text)) => Ok(Found::Fault(text)),
            (Found::Number(a), Found::Number(b)) => {
                Ok(Found::Number(a.checked_add(b).ok_or(AllocError)?))
            }
        }
    }
}

/// What a part of the total comes to, and how many loads it reads.
#[derive(Clone, Copy)]
struct Finding<'m> {
    found: Found<'m>,
    loads: u64,
}

impl<'m> Finding<'m> {
    // A part that reads one load.
    fn of_one_load(found: Found<'m>) -> Finding<'m>
        ensures { result ≡ record { found = found.entry; loads = 1 } }
    {
        Finding { found, loads: 1 }
    }
}

// The amount of an order, if it has one.
fn amount(order: &Row) -> Option<u32>
    ensures { result ≡ amount_of order.now }
{
    match order.get("amount") {
        Cell::Text(text) => text.parse::<u32>().ok(),
        Cell::NoColumn | Cell::Null => None,
    }
}

// The sum of the amounts of orders, if each has one.
fn sum(orders: &[Row]) -> Result<Option<u64>, AllocError>
    ensures { IfOk result (λ sum. sum ≡ sum_of orders.now) }
{
    let mut sum: u64 = 0;
    for order in orders {
        let Some(amount) = amount(order) else {
            return Ok(None);
        };
        sum = sum.checked_add(u64::from(amount)).ok_or(AllocError)?;
    }
    Ok(Some(sum))
}

// Returns what a friend's orders come to. If they aren't known, they are wanted.
fn of_friend<'m>(
    alloc: Global,
    memory: &'m Memory,
    wants: &mut Wants,
    friend: &Row,
) -> Result<Finding<'m>, AllocError>
    requires known { 2 ≤ length memory.now.modes }
    requires wanted { 2 ≤ length wants.old }
    ensures found { IfOk result (IsFound (friend_total (cell_of friend.now (codes "friend")))
        memory.now wants.old wants.new) }
    ensures loaders { length wants.new ≡ length wants.old }
{
    let Cell::Text(id) = friend.get("friend") else {
        return Ok(Finding {
            found: Found::Fault("a friend without an id"),
            loads: 0,
        });
    };
    match look_up(alloc, memory, wants, ORDERS_OF, id)? {
        None => Ok(Finding::of_one_load(Found::Missing)),
        Some(Outcome::Rows(orders)) => match sum(orders)? {
            Some(sum) => Ok(Finding::of_one_load(Found::Number(sum))),
            None => Ok(Finding::of_one_load(Found::Fault("an order without an amount"))),
        },
        Some(Outcome::KeyFault(text) | Outcome::BatchFault(text)) => Ok(Finding::of_one_load(
            Found::Fault(text.as_str()),
        )),
    }
}

// Returns what all friends' orders come to. Those that aren't known are wanted.
fn of_friends<'m>(
    alloc: Global,
    memory: &'m Memory,
    wants: &mut Wants,
    friends: &[Row],
) -> Result<Finding<'m>, AllocError>
    requires known { 2 ≤ length memory.now.modes }
    requires wanted { 2 ≤ length wants.old }
    ensures found { IfOk result
        (AreFound (friend_totals 0 friends.now) memory.now wants.old wants.new) }
    ensures loaders { length wants.new ≡ length wants.old }
{
    let mut all = Finding {
        found: Found::Number(0),
        loads: 0,
    };
    for friend in friends {
        let part = of_friend(alloc, memory, wants, friend)?;
        all = Finding {
            found: all.found.and(part.found)?,
            loads: all.loads.saturating_add(part.loads),
        };
    }
    Ok(all)
}

impl FriendsTotal {
    // Returns what it comes to. What it needs and isn't known is wanted.
    fn find_total<'m>(
        &self,
        alloc: Global,
        memory: &'m Memory,
        wants: &mut Wants,
    ) -> Result<Finding<'m>, AllocError>
        requires known { 2 ≤ length memory.now.modes }
        requires wanted { 2 ≤ length wants.old }
        ensures { IfOk result (IsFound (total_of_friends (string_bytes self.now.customer))
            memory.now wants.old wants.new) }
    {
        match look_up(alloc, memory, wants, FRIENDS_OF, self.customer.as_str())? {
            None => Ok(Finding::of_one_load(Found::Missing)),
            Some(Outcome::Rows(friends)) => {
                let all = of_friends(alloc, memory, wants, friends)?;
                Ok(Finding {
                    found: all.found,
                    loads: all.loads.saturating_add(1),
                })
            }
            Some(Outcome::KeyFault(text) | Outcome::BatchFault(text)) => Ok(Finding::of_one_load(
                Found::Fault(text.as_str()),
            )),
        }
    }
}

impl Execute<Anew> for FriendsTotal {
    ghost program = { λ total. total_of_friends (string_bytes total.customer) };

    ghost text_of = { λ _. total_text };

    ghost loaders = { λ _. 2 };

    ghost fits = { λ _ _ _. ⊤ };

    ghost left = { λ _ _ _. 0 };

    fn start(&self) -> Anew {
        Anew
    }

    fn execute(
        &self,
        _progress: &mut Anew,
        alloc: Global,
        memory: &Memory,
        wants: &mut Wants,
    ) -> Result<Poll<ExecutionResult>, AllocError> {
        let total = self.find_total(alloc, memory, wants)?;
        let loads = total.loads;
        match total.found {
            Found::Missing => Ok(Poll::Pending),
            Found::Number(sum) => {
                let text = format!(in alloc; "{sum}")?;
                Ok(Poll::Ready(ExecutionResult { text, loads }))
            }
            Found::Fault(text) => {
                let text = String::from_str(alloc, text)?;
                Ok(Poll::Ready(ExecutionResult { text, loads }))
            }
        }
    }

    // Nothing can be done ahead.
    fn work_ahead(
        &self,
        _progress: &mut Anew,
        _alloc: Global,
        _memory: &Memory,
        steps: usize,
    ) -> Result<Option<usize>, AllocError> {
        Ok(Some(steps))
    }
}
