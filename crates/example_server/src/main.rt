//! Each call of `server`, in an example of a few lines. The command prints what each gives.
#![tactic(auto)]

mod books;

use anyhow::bail;
use books::{Books, fetch_books};
use futures::executor::block_on;
use server::{
    ByHand, ClientSession, CountedDevice, FetchFault, HandedIn, Item, Key, LoadByHand, Outcome,
    Pending, PlannedLoad, Progress, Request, RequestInput, Row, Server, Sessions, Workers, serve,
    serve_with, source_fn,
};
use std::alloc::{AllocError, AllocGlobal, Global};
use std::random::RandomSource;
use std::sync::Wait;
use std::thread;
use std::thread::Threads;

const SCHEMA: &str = "type Query { book(id: ID!): Book books(ids: [ID!]!): [Book]! }
type Book { id: ID! title: String! }";

const BINDINGS: &str = "bindings 1
loader bookById books by id
field Query.book one bookById arg id
field Query.books each bookById arg ids";

/// The number of the one loader.
const BOOK_BY_ID: usize = 0;

/// At most how many rounds a request by hand gets. (A `for` ends by itself; of a `loop` that would have to be proved.)
const MOST_ROUNDS: u32 = 8;

fn asking(query: &str) -> Request<'_> {
    Request {
        query,
        operation_name: None,
        variables: None,
    }
}

// The refusal of a query that isn't valid is a response too.
fn answer(session: &mut ClientSession<Books>, query: &str) -> anyhow::Result<String> {
    let answer = session.answer(&asking(query))?;
    Ok(answer.text)
}

// Requests that are answered together share their rounds: this takes one, of which `rounds` tells.
fn answer_all(alloc: Global, session: &mut ClientSession<Books>) -> anyhow::Result<String> {
    let requests = [
        Some(asking("{book(id:1){title}}")),
        Some(asking("{book(id:2){title}}")),
        None,
    ];
    let answer = session.answer_all(&requests)?;
    Ok(format!(in alloc; "{} in {} round", answer.text, answer.rounds)?)
}

// A request as its client sends it.
fn answer_text(session: &mut ClientSession<Books>) -> anyhow::Result<String> {
    let text = "{\"query\":\"query($id:ID!){book(id:$id){title}}\",\"variables\":{\"id\":3}}";
    Ok(session.answer_text(text.as_bytes())?.text)
}

// A source that is a function needs no type of its own.
fn source_of_a_function(alloc: Global, server: &Server) -> anyhow::Result<String> {
    let books = source_fn(fetch_books);
    let mut session = server.session(alloc, None, |_line| books)?;
    Ok(session.answer(&asking("{book(id:3){title}}"))?.text)
}

// Two threads ask the source: the ids are cut into batches of one, since the session was made so.
fn answer_with_workers<R: Threads + Wait + AllocGlobal + Sync>(
    rt: &R,
    server: &Server,
    asked: RequestInput<'_>,
) -> anyhow::Result<String> {
    let mut session = server.session(rt.alloc(), Some(1), |_line| Books)?;
    let workers = Workers::new(rt, 2)?;
    Ok(session.answer_with(&workers, asked)?.text)
}

// The caller replies to the orders of a round itself, here to the last one first. A batch may fail as a whole.
fn reply_to_orders(alloc: Global, by_hand: &mut ByHand<Books>) -> anyhow::Result<()> {
    for number in (0..by_hand.orders().len()).rev() {
        if let Some(Pending::Out(order)) = by_hand.orders().get(number) {
            let items = fetch_books(alloc, order.keys());
            by_hand.reply(number, items)?;
        }
    }
    Ok(())
}

// A request by hand. Its ids are cut into batches of one, as the session was made.
fn by_hand(alloc: Global, server: &Server) -> anyhow::Result<String> {
    let mut client = server.session(alloc, Some(1), |_line| Books)?;
    let planned = client.plan(&asking("{books(ids:[1,3,1]){title}}"))?;
    let mut by_hand = client.by_hand(planned);
    for _round in 0..MOST_ROUNDS {
        match by_hand.advance()? {
            Progress::Done(answer) => return Ok(answer.text),
            _ => reply_to_orders(alloc, &mut by_hand)?,
        }
    }
    bail!("too many rounds")
}

// A request that is refused is answered by the first call, and the client can be taken back at any time.
fn refused_by_hand(alloc: Global, server: &Server) -> anyhow::Result<String> {
    let mut client = server.session(alloc, None, |_line| Books)?;
    let planned = client.plan_text("{}".as_bytes())?;
    let mut by_hand = client.by_hand(planned);
    let progress = by_hand.advance()?;
    let asked = by_hand
        .into_client()
        .session()
        .logs(BOOK_BY_ID)
        .unwrap_or(&[])
        .len();
    match progress.into_done() {
        Some(answer) => Ok(format!(in alloc; "{} after {asked} batches", answer.text)?),
        None => bail!("no answer"),
    }
}

// Replies to the orders of a round that is out.
fn reply_to_round(alloc: Global, by_hand: &mut ByHand<HandedIn>) -> anyhow::Result<()> {
    for number in 0..by_hand.orders().len() {
        if let Some(Pending::Out(order)) = by_hand.orders().get(number) {
            let items = fetch_books(alloc, order.keys());
            by_hand.reply(number, items)?;
        }
    }
    Ok(())
}

// Takes a request by hand to its answer, on whichever thread has it.
fn answer_elsewhere(alloc: Global, by_hand: ByHand<HandedIn>) -> anyhow::Result<String> {
    let mut by_hand = by_hand;
    for _round in 0..MOST_ROUNDS {
        if let Progress::Done(answer) = by_hand.advance()? {
            return Ok(answer.text);
        }
        reply_to_round(alloc, &mut by_hand)?;
    }
    bail!("too many rounds")
}

// A request by hand owns its client and its plan, so it goes to another thread.
fn on_another_thread<R: Threads + AllocGlobal>(rt: &R, server: &Server) -> anyhow::Result<String> {
    let alloc = rt.alloc();
    let mut client = server.session(alloc, Some(1), |_line| HandedIn)?;
    let planned = client.plan(&asking("{books(ids:[3,1]){title}}"))?;
    let by_hand = client.by_hand(planned);
    let answering = thread::spawn(rt, move || answer_elsewhere(alloc, by_hand))?;
    answering.join(rt)
}

// The caller replies to the orders of a load itself.
fn reply_to_load(alloc: Global, load: &mut LoadByHand<Books>) -> anyhow::Result<()> {
    for number in 0..load.orders().len() {
        if let Some(Pending::Out(order)) = load.orders().get(number) {
            let items = fetch_books(alloc, order.keys());
            load.reply(number, items)?;
        }
    }
    Ok(())
}

// Goes on with a load until its outcomes are there.
fn finish_load(alloc: Global, load: &mut LoadByHand<Books>) -> anyhow::Result<Vec<Outcome>> {
    for _round in 0..MOST_ROUNDS {
        if let Progress::Done(outcomes) = load.advance()? {
            return Ok(outcomes);
        }
        reply_to_load(alloc, load)?;
    }
    bail!("too many rounds")
}

// Keys that are loaded by hand: of equal keys only the first is asked for, here in batches of one.
fn load_by_hand(alloc: Global, server: &Server) -> anyhow::Result<String> {
    let client = server.session(alloc, Some(1), |_line| Books)?;
    if BOOK_BY_ID >= client.session().loaders().len() {
        bail!("no loader")
    }
    let one = Key::of_text(alloc, "1")?;
    let other = Key::of_text(alloc, "7")?;
    let same = Key::of_text(alloc, "1")?;
    let planned = PlannedLoad::new(BOOK_BY_ID, vec![in alloc; one, other, same]?)?;
    let mut load = client.load_by_hand(planned);
    let outcomes = finish_load(alloc, &mut load)?;
    let client = load.into_client();
    let asked = client.session().logs(BOOK_BY_ID).unwrap_or(&[]).len();
    Ok(format!(in alloc; "{} outcomes of {asked} batches", outcomes.len())?)
}

// A request in a session of its own.
fn answer_in_session(alloc: Global, server: &Server, query: &str) -> anyhow::Result<String> {
    let mut session = server.session(alloc, None, |_line| Books)?;
    answer(&mut session, query)
}

// Two threads share a server. Each has a session of its own.
fn share_a_server<R: Threads + AllocGlobal>(rt: &R, server: &Server) -> anyhow::Result<String> {
    let alloc = rt.alloc();
    let (theirs, mine) = thread::join(
        rt,
        || answer_in_session(alloc, server, "{book(id:2){title}}"),
        || answer_in_session(alloc, server, "{book(id:3){title}}"),
    );
    Ok(format!(in alloc; "{} and {}", theirs?, mine?)?)
}

// An array of requests as a future, which asks the sources of the session, a round for each poll.
fn as_a_future<R: Wait + RandomSource + AllocGlobal>(
    rt: &R,
    server: &Server,
) -> anyhow::Result<String> {
    let mut client = server.session(rt.alloc(), None, |_line| Books)?;
    let planned = client.plan_all(&[Some(asking("{book(id:2){title}}")), None])?;
    let (_client, answer) = block_on(rt, client.into_answering(planned))?;
    Ok(answer?.text)
}

// An answer of more bytes than the limit is refused.
fn limit_answers(session: &mut ClientSession<Books>) -> anyhow::Result<String> {
    session.limit_answers(Some(20));
    let answer = session.answer(&asking("{book(id:1){title}}"))?;
    session.limit_answers(None);
    Ok(answer.text)
}

// What is more work than the limit is refused. The response, the book and its title are three positions.
fn limit_work(session: &mut ClientSession<Books>) -> anyhow::Result<String> {
    session.limit_work(Some(2));
    let answer = session.answer(&asking("{book(id:1){title}}"))?;
    session.limit_work(None);
    Ok(answer.text)
}

// So is what needs more rounds than the limit: nothing is asked here.
fn limit_rounds(session: &mut ClientSession<Books>) -> anyhow::Result<String> {
    session.limit_rounds(Some(0));
    let answer = session.answer(&asking("{book(id:8){title}}"))?;
    session.limit_rounds(None);
    Ok(answer.text)
}

// Primes a key, which isn't asked then.
fn prime(alloc: Global, session: &mut ClientSession<Books>) -> anyhow::Result<String> {
    let key = Key::of_text(alloc, "9")?;
    let row = Row::new(alloc, &[("id", "9"), ("title", "Unwritten")])?;
    let added = session.prime(BOOK_BY_ID, &key, Item::Rows(row.into()))?;
    let answer = session.answer(&asking("{book(id:9){title}}"))?;
    Ok(format!(in alloc; "{added} {} in {} rounds", answer.text, answer.rounds)?)
}

// Clears a key, which is asked again then.
fn clear(alloc: Global, session: &mut ClientSession<Books>) -> anyhow::Result<String> {
    let key = Key::of_text(alloc, "9")?;
    let known = session.clear(BOOK_BY_ID, &key)?;
    let answer = session.answer(&asking("{book(id:9){title}}"))?;
    session.clear_all(BOOK_BY_ID)?;
    Ok(format!(in alloc; "{known} {}", answer.text)?)
}

// One key, by itself.
fn load(alloc: Global, session: &mut ClientSession<Books>) -> anyhow::Result<String> {
    let outcome = session.load(BOOK_BY_ID, Key::of_text(alloc, "2")?)?;
    match outcome {
        Outcome::Rows(rows) => Ok(format!(in alloc; "{} row", rows.len())?),
        _ => Ok(String::from_str(alloc, "a fault")?),
    }
}

// Several keys, in one round.
fn load_many(alloc: Global, session: &mut ClientSession<Books>) -> anyhow::Result<String> {
    let one = Key::of_text(alloc, "1")?;
    let other = Key::of_text(alloc, "7")?;
    let outcomes = session.load_many(BOOK_BY_ID, &[one, other])?;
    Ok(format!(in alloc; "{} outcomes", outcomes.len())?)
}

// The batches that were asked, and a session that starts again.
fn restart(alloc: Global, session: &mut ClientSession<Books>) -> anyhow::Result<String> {
    let asked = session.session().logs(BOOK_BY_ID).unwrap_or(&[]).len();
    session.restart()?;
    let left = session.session().logs(BOOK_BY_ID).unwrap_or(&[]).len();
    Ok(format!(in alloc; "{asked} batches, then {left}")?)
}

// Returns how many calls execution one key at a time makes for a request, which asks for a key as often as it is needed.
fn loads(alloc: Global, server: &Server) -> anyhow::Result<String> {
    let mut session = server.session(alloc, None, |_line| Books)?;
    let answer = session.answer(&asking("{books(ids:[1,2,1,3]){title}}"))?;
    let batches = session.session().logs(BOOK_BY_ID).unwrap_or(&[]).len();
    Ok(format!(in alloc; "{} calls, and {batches} batch was asked", answer.loads)?)
}

// The lines of any reader, to any writer.
fn serve_lines(alloc: Global, session: &mut ClientSession<Books>) -> anyhow::Result<String> {
    let mut reader = CountedDevice::new("{\"query\":\"{book(id:1){title}}\"}\n[]\n".as_bytes());
    let mut written = Vec::new(alloc);
    let mut writer = CountedDevice::new(&mut written);
    let lines = serve(alloc, session, &mut reader, &mut writer)?;
    drop(writer);
    Ok(format!(in alloc; "{}{lines} lines", str::from_utf8(&written)?)?)
}

// Does the same with two threads.
fn serve_lines_with_workers<R: Threads + Wait + AllocGlobal + Sync>(
    rt: &R,
    server: &Server,
) -> anyhow::Result<String> {
    let alloc = rt.alloc();
    let mut session = server.session(alloc, Some(1), |_line| Books)?;
    let workers = Workers::new(rt, 2)?;
    let mut reader = CountedDevice::new("{\"query\":\"{books(ids:[1,3]){title}}\"}".as_bytes());
    let mut written = Vec::new(alloc);
    let mut writer = CountedDevice::new(&mut written);
    let lines = serve_with(alloc, &mut session, &workers, &mut reader, &mut writer)?;
    drop(writer);
    Ok(format!(in alloc; "{}{lines} line", str::from_utf8(&written)?)?)
}

// The calls that answer requests.
fn show_requests(
    rt: &impl Print,
    alloc: Global,
    session: &mut ClientSession<Books>,
) -> anyhow::Result<()> {
    println!(rt; "answer: {}", answer(session, "{book(id:1){title}}")?)?;
    println!(rt; "refusal: {}", answer(session, "{book{title}}")?)?;
    println!(rt; "answer_all: {}", answer_all(alloc, session)?)?;
    println!(rt; "answer_text: {}", answer_text(session)?)?;
    println!(rt; "limit_answers: {}", limit_answers(session)?)?;
    println!(rt; "limit_work: {}", limit_work(session)?)?;
    println!(rt; "limit_rounds: {}", limit_rounds(session)?)?;
    Ok(())
}

// The calls for keys.
fn show_keys(
    rt: &impl Print,
    alloc: Global,
    session: &mut ClientSession<Books>,
) -> anyhow::Result<()> {
    println!(rt; "prime: {}", prime(alloc, session)?)?;
    println!(rt; "clear: {}", clear(alloc, session)?)?;
    println!(rt; "load: {}", load(alloc, session)?)?;
    println!(rt; "load_many: {}", load_many(alloc, session)?)?;
    println!(rt; "restart: {}", restart(alloc, session)?)?;
    Ok(())
}

// The calls of one session, in turn.
fn show_session(rt: &impl Print, alloc: Global, server: &Server) -> anyhow::Result<()> {
    let mut session = server.session(alloc, None, |_line| Books)?;
    show_requests(rt, alloc, &mut session)?;
    show_keys(rt, alloc, &mut session)?;
    println!(rt; "serve: {}", serve_lines(alloc, &mut session)?)?;
    Ok(())
}

// The calls that ask by workers.
fn show_workers<R: Print + Threads + Wait + AllocGlobal + Sync>(
    rt: &R,
    server: &Server,
) -> anyhow::Result<()> {
    let one = asking("{books(ids:[1,2,9]){title}}");
    let answer = answer_with_workers(rt, server, RequestInput::One(&one))?;
    println!(rt; "answer_with, one: {answer}")?;
    let several = [
        Some(asking("{book(id:1){title}}")),
        Some(asking("{book(id:2){title}}")),
    ];
    let answer = answer_with_workers(rt, server, RequestInput::Several(&several))?;
    println!(rt; "answer_with, several: {answer}")?;
    let text = "{\"query\":\"{books(ids:[2,3]){title}}\"}".as_bytes();
    let answer = answer_with_workers(rt, server, RequestInput::Text(text))?;
    println!(rt; "answer_with, text: {answer}")?;
    println!(rt; "serve_with: {}", serve_lines_with_workers(rt, server)?)?;
    Ok(())
}

// The calls whose rounds the caller runs.
fn show_by_hand<R: Print + Threads + AllocGlobal>(rt: &R, server: &Server) -> anyhow::Result<()> {
    let alloc = rt.alloc();
    println!(rt; "by_hand: {}", by_hand(alloc, server)?)?;
    println!(rt; "refused by hand: {}", refused_by_hand(alloc, server)?)?;
    println!(rt; "owned by hand: {}", on_another_thread(rt, server)?)?;
    println!(rt; "load by hand: {}", load_by_hand(alloc, server)?)?;
    Ok(())
}

fn main(rt: HostRuntime) -> anyhow::Result<()> {
    let alloc = rt.alloc();
    let server = Server::read(alloc, SCHEMA, BINDINGS)?;
    show_session(&rt, alloc, &server)?;
    println!(rt; "source_fn: {}", source_of_a_function(alloc, &server)?)?;
    show_workers(&rt, &server)?;
    show_by_hand(&rt, &server)?;
    println!(rt; "a shared server: {}", share_a_server(&rt, &server)?)?;
    println!(rt; "into_answering: {}", as_a_future(&rt, &server)?)?;
    println!(rt; "loads: {}", loads(alloc, &server)?)?;
    Ok(())
}
