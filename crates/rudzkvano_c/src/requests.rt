//! Requests, and their rounds.
//!
//! A call has as many parameters as it has buffers: a struct of slices can't cross from C, and structs of
//! pointers and lengths would be read by code that no contract reaches.
ghost use Rattle.std.specs.Prelude.{◌≡◌, [], Some, Ok, Err, IfOk, IfErr};
ghost use Rattle.load_memory.specs.Cells.{cut};
ghost use Rattle.flat_orders.specs.Orders.{orders_said};
ghost use Rattle.flat_rows.specs.Keyed.{laid_rows};
ghost use Rattle.host_clients.specs.Asked.{line as line_asked, parts_asked};
ghost use Rattle.host_clients.specs.Clients.{Cancels};
ghost use Rattle.host_clients.specs.Laid.{reply_at};
ghost use Rattle.host_clients.specs.Texts.{asked_in};
ghost use Rattle.rudzkvano_c.specs.Held.{AdvancesHeld, BeginsBy, Copies, CopiesAnswer, CopiesOrders, Makes};
ghost use Rattle.rudzkvano_c.specs.Held.{TakesFailed, TakesRows, TakesRowsByKey, rows_at};
ghost use Rattle.rudzkvano_c.specs.Told.{IsRowTold};
ghost use Rattle.rudzkvano_c.specs.Sizes.{TellsSizes, sizes_in, sizes_of};

use crate::codes::{code_of, progress_code};
use crate::handle::Handle;
use host_clients::{
    Fault, FlatAsked, FlatOrders, FlatReply, FlatRequest, HostClient, KeyedRefusal, KeyedReply,
    Object,
};
use std::alloc::Global;

/// Numbers of elements that the buffers of `rz_orders` and `rz_answer` have to hold, and of the rounds that the answer
/// took.
#[repr(C)]
#[derive(Drop)]
pub struct Sizes {
    pub orders: usize,
    pub keys: usize,
    pub texts: usize,
    pub bytes: usize,
    pub answer: usize,
    pub rounds: u64,
}

// What a client makes of what it is asked, by what is kept of queries.
fn begin_by(
    alloc: Global,
    client: &mut HostClient,
    queries: &mut Object,
    asked: &FlatAsked<'_>,
) -> Result<(), Fault>
    ensures begun { BeginsBy (Some queries.old) (asked_in asked.now)
        client.old client.new result }
    ensures kept { queries.new ≡ queries.old }
{
    match queries {
        Object::Queries(queries) => client.begin(alloc, queries, asked),
        Object::Server(_) | Object::Client(_) => Err(Fault::BadHandle),
    }
}

// The same, by what a handle holds.
fn begin_held(
    alloc: Global,
    client: &mut HostClient,
    queries: &mut Handle,
    asked: &FlatAsked<'_>,
) -> Result<(), Fault>
    ensures begun { BeginsBy queries.old.held (asked_in asked.now)
        client.old client.new result }
    ensures kept { queries.new.held ≡ queries.old.held }
{
    queries.on_object(
        alloc,
        &mut |queries| begin_by(alloc, client, queries, asked),
    )
}

// The same of a client that a handle holds.
fn begin(alloc: Global, client: &mut Handle, queries: &mut Handle, asked: &FlatAsked<'_>) -> i32
    ensures begun { Makes (BeginsBy queries.old.held (asked_in asked.now))
        client.old.held client.new.held result }
    ensures kept { queries.new.held ≡ queries.old.held }
{
    code_of(client.on_client(
        alloc,
        &mut |client| begin_held(alloc, client, queries, asked),
    ))
}

/// Begins the answer to a request line.
///
/// # Promise
///
/// The request is planned by the server of the queries for the client as it is, and nothing is asked of loaders yet
/// (`IsBegun`); or, refused, nothing has changed, and the code says why: the client is busy, that server has another
/// number of loaders, or memory ran out (`AskFault`)
#[unsafe(no_mangle)]
pub extern "C" fn rz_begin(
    alloc: Global,
    client: &mut Handle,
    queries: &mut Handle,
    line: &[u8],
) -> i32
    ensures begun { Makes (BeginsBy queries.old.held (line_asked line.now))
        client.old.held client.new.held result }
    ensures kept { queries.new.held ≡ queries.old.held }
{
    begin(alloc, client, queries, &FlatAsked::Line(line))
}

/// Begins the answer to a request by its parts.
///
/// # Promise
///
/// As `rz_begin` says
#[unsafe(no_mangle)]
pub extern "C" fn rz_begin_request(
    alloc: Global,
    client: &mut Handle,
    queries: &mut Handle,
    query: &[u8],
    operation_name: &[u8],
    variables: &[u8],
) -> i32
    ensures begun { Makes (BeginsBy queries.old.held (parts_asked query.now operation_name.now variables.now))
        client.old.held client.new.held result }
    ensures kept { queries.new.held ≡ queries.old.held }
{
    let request = FlatRequest {
        query,
        operation_name,
        variables,
    };
    begin(alloc, client, queries, &FlatAsked::Request(request))
}

/// Gives up the request that is being answered, or the keys that are loaded.
///
/// # Promise
///
/// The request or the load is given up: the finished rounds stay in the client's session, and perhaps one more was lost
#[unsafe(no_mangle)]
pub extern "C" fn rz_cancel(alloc: Global, client: &mut Handle) -> i32
    ensures { Makes Cancels client.old.held
        client.new.held result }
{
    code_of(client.on_client(alloc, &mut |client| client.cancel()))
}

/// Goes on with the request, or with the keys that are loaded.
///
/// # Promise
///
/// The client and the code as a call of `HostClient::advance` makes them (`AdvancesHeld`). `RZ_DONE`: from
/// whichever client it was begun, the text answers it in the client's session as it is now (`AnswersIt`); or all
/// that was done there is a call of `load_many` with these keys and outcomes (`LoadsIt`). `RZ_ROUND`: a new round
/// is out, none of whose orders has a reply. `RZ_WAITING`: nothing has changed
#[unsafe(no_mangle)]
pub extern "C" fn rz_next(alloc: Global, client: &mut Handle) -> i32
    ensures { AdvancesHeld client.old.held
        client.new.held result }
{
    progress_code(client.on_client(alloc, &mut |client| client.advance(alloc)))
}

// The sizes of the orders of a round.
fn round_sizes(orders: &FlatOrders) -> Sizes
    ensures { result ≡ sizes_of orders.now }
{
    let wanted = orders.sizes();
    Sizes {
        orders: wanted.lists,
        keys: wanted.keys,
        texts: wanted.texts,
        bytes: wanted.bytes,
        answer: 0,
        rounds: 0,
    }
}

fn sizes_in(client: &HostClient) -> Sizes
    ensures { result ≡ sizes_in client.now }
{
    let mut sizes = Sizes {
        orders: 0,
        keys: 0,
        texts: 0,
        bytes: 0,
        answer: 0,
        rounds: 0,
    };
    match client {
        HostClient::Asked(under_way) => sizes = round_sizes(under_way.orders()),
        HostClient::Loading(loading) => sizes = round_sizes(loading.orders()),
        HostClient::Answered(answered) => {
            sizes.answer = answered.text().len();
            sizes.rounds = u64::from(answered.rounds());
        }
        _ => {}
    }
    sizes
}

/// Returns how many elements the buffers of `rz_orders` and `rz_answer` have to hold.
///
/// # Promise
///
/// As `rz_log_sizes` says
#[unsafe(no_mangle)]
pub extern "C" fn rz_sizes(alloc: Global, client: &mut Handle, sizes: &mut Sizes) -> i32
    ensures sizes { Copies (TellsSizes sizes.new)
        client.old.held result }
    ensures kept { client.new.held ≡ client.old.held }
{
    code_of(client.on_client(
        alloc,
        &mut |client| {
            *sizes = sizes_in(client);
            Ok(())
        },
    ))
}

// The orders of the round that is out.
fn orders_of(client: &HostClient) -> Result<&FlatOrders, Fault>
    ensures orders { IfOk result
        (λ orders. CopiesOrders orders.now client.now (Ok tt)) }
    ensures none { IfErr result
        (λ e. CopiesOrders [] client.now (Err e)) }
{
    match client {
        HostClient::Asked(under_way) => Ok(under_way.orders()),
        HostClient::Loading(loading) => Ok(loading.orders()),
        _ => Err(Fault::NoOrder),
    }
}

fn copy_orders(
    client: &HostClient,
    loaders: &mut [u32],
    keys: &mut [u32],
    texts: &mut [u32],
    ends: &mut [u32],
    bytes: &mut [u8],
) -> Result<(), Fault>
    ensures { let orders = orders_said loaders.new keys.new texts.new (cut bytes.new 0 ends.new) in
        CopiesOrders orders client.now result }
{
    Ok(orders_of(client)?.copy_to(loaders, keys, texts, ends, bytes)?)
}

/// Copies the orders of the round that is out.
///
/// # Promise
///
/// Where it gives 0, what the buffers say (`orders_said`) are the orders of the round that is out
#[unsafe(no_mangle)]
pub extern "C" fn rz_orders(
    alloc: Global,
    client: &mut Handle,
    loaders: &mut [u32],
    keys: &mut [u32],
    texts: &mut [u32],
    ends: &mut [u32],
    bytes: &mut [u8],
) -> i32
    ensures copied { let orders = orders_said loaders.new keys.new texts.new
        (cut bytes.new 0 ends.new) in Copies (CopiesOrders orders) client.old.held result }
    ensures kept { client.new.held ≡ client.old.held }
{
    code_of(client.on_client(
        alloc,
        &mut |client| copy_orders(client, loaders, keys, texts, ends, bytes),
    ))
}

/// Takes the rows for the keys of an order.
///
/// # Promise
///
/// Where it gives 0, the order of that number takes the items that the buffers say (`reply_items`), an item for
/// each key, or the failure of its batch, and no other order changes. Refused, nothing has changed; but where memory
/// ran out, what is under way may be given up, which `rz_next` tells: then no order took a reply, and all that the
/// client knows is as it was (`KeepsOrStops`). The code says why (`RowsFault`, `FailureFault`)
#[unsafe(no_mangle)]
pub extern "C" fn rz_take_rows(
    alloc: Global,
    client: &mut Handle,
    order: usize,
    columns: usize,
    rows: &[u32],
    ends: &[u32],
    bytes: &[u8],
) -> i32
    ensures { let reply = reply_at columns rows.now ends.now bytes.now in
        Makes (TakesRows order reply) client.old.held client.new.held result }
{
    let reply = FlatReply {
        columns,
        rows,
        ends,
        bytes,
    };
    code_of(client.on_client(alloc, &mut |client| client.take_rows(alloc, order, &reply)))
}

// Tells the number of a row whose key wasn't asked for.
fn tell_row(taken: Result<(), KeyedRefusal>, row: &mut u32) -> Result<(), Fault>
    ensures { IsRowTold taken row.old row.new result }
{
    match taken {
        Ok(()) => Ok(()),
        Err(KeyedRefusal::Refused(fault)) => Err(fault),
        Err(KeyedRefusal::NotAsked(number)) => {
            *row = number;
            Err(Fault::NotAsked)
        }
    }
}

// Takes rows for an order. The number of a row whose key wasn't asked for is told.
fn take_keyed_rows(
    alloc: Global,
    client: &mut HostClient,
    order: usize,
    reply: &KeyedReply<'_>,
    row: &mut u32,
) -> Result<(), Fault>
    ensures { TakesRowsByKey order (laid_rows reply.now) row.old row.new
        client.old client.new result }
{
    tell_row(client.take_keyed_rows(alloc, order, reply), row)
}

/// Takes rows for the keys of an order, in any order, and faults of keys.
///
/// # Promise
///
/// Where it gives 0, each key of the order of that number takes its fault, if it has one, and else the rows that have
/// it in the columns of the order's loader, in the order given (`replied_items`), no row has another key
/// (`IsKeyedReply`), and no other order changes. Refused, it is as `rz_take_rows`; for a row whose key wasn't asked
/// for `row` has the number of the first, from 1 (`TakesRowsByKey`, `KeyedRowsFault`)
#[unsafe(no_mangle)]
pub extern "C" fn rz_take_keyed_rows(
    alloc: Global,
    client: &mut Handle,
    order: usize,
    columns: usize,
    rows: u32,
    faults: &[u32],
    ends: &[u32],
    bytes: &[u8],
    row: &mut u32,
) -> i32
    ensures { let r = rows_at columns rows faults.now ends.now bytes.now in Makes
        (TakesRowsByKey order r row.old row.new) client.old.held client.new.held result }
{
    let reply = KeyedReply {
        columns,
        rows,
        faults,
        ends,
        bytes,
    };
    code_of(client.on_client(
        alloc,
        &mut |client| take_keyed_rows(alloc, client, order, &reply, row),
    ))
}

/// Takes it that the batch of an order failed as a whole.
///
/// # Promise
///
/// As `rz_take_rows` says
#[unsafe(no_mangle)]
pub extern "C" fn rz_take_failed(
    alloc: Global,
    client: &mut Handle,
    order: usize,
    text: &[u8],
) -> i32
    ensures { Makes (TakesFailed order text.now)
        client.old.held client.new.held result }
{
    code_of(client.on_client(alloc, &mut |client| client.take_failed(alloc, order, text)))
}

/// Copies the text of the answer.
///
/// # Promise
///
/// Where it gives 0, the bytes are the text of the answer that the handle holds, and that answers what was begun
/// (`IsAnswerOf`): in a session of a client of the server that planned it, from one state to a later one, as `server` answers it
/// (`AnswersAsked`)
#[unsafe(no_mangle)]
pub extern "C" fn rz_answer(alloc: Global, client: &mut Handle, bytes: &mut [u8]) -> i32
    // The text is the answer of what was asked, where it gives 0.
    ensures text { Copies (CopiesAnswer bytes.new)
        client.old.held result }
    ensures kept { client.new.held ≡ client.old.held }
{
    code_of(client.on_client(
        alloc,
        &mut |client| {
            let HostClient::Answered(answered) = client else {
                return Err(Fault::Idle);
            };
            let text = answered.text().as_bytes();
            if bytes.len() != text.len() {
                return Err(Fault::BadSize);
            }
            bytes.copy_from_slice(text);
            Ok(())
        },
    ))
}
