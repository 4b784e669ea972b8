//! Command line, as `clap` reads it.

ghost use Rattle.std.specs.Prelude.{◌≡◌, IfOk, false};
ghost use Rattle.clap.specs.Words.{app_of, rule_of};
ghost use Rattle.query_command.specs.Command.{command_line, schema_rule, bindings_rule, workers_rule, max_batch_rule, max_answer_rule, max_work_rule, explain_rule, trace_rule, requests_rule, table_rule};

use clap::{Arg, ArgAction, Command};
use std::alloc::{AllocError, Global};

// The option for a number of workers, at least 1 and at most 16.
fn workers<'a>(alloc: Global) -> Arg<'a>
    ensures rule { rule_of result ≡ workers_rule }
    ensures local { result.global ≡ false }
{
    Arg::new(alloc, "workers")
        .long("workers")
        .value_name("N")
        .help(
            "How many workers run the batches of a round at the same time, from 1 to 16; in turn if left out",
        )
        .value_parser(clap::value_parser!(u32).range(1..=16))
}

// The option for a number of keys, at least 1 and at most 65,535.
fn max_batch<'a>(alloc: Global) -> Arg<'a>
    ensures rule { rule_of result ≡ max_batch_rule }
    ensures local { result.global ≡ false }
{
    Arg::new(alloc, "max-batch")
        .long("max-batch")
        .value_name("N")
        .help("At most how many keys one batch has, from 1 to 65535; no bound if left out")
        .value_parser(clap::value_parser!(u32).range(1..=65_535))
}

// The option for a number of bytes, at least 1 and at most 4,294,967,295.
fn max_answer<'a>(alloc: Global) -> Arg<'a>
    ensures rule { rule_of result ≡ max_answer_rule }
    ensures local { result.global ≡ false }
{
    Arg::new(alloc, "max-answer")
        .long("max-answer")
        .value_name("BYTES")
        .help(
            "At most how many bytes one answer has, from 1 to 4294967295; a longer one is refused; no bound if left out",
        )
        .value_parser(clap::value_parser!(u32).range(1..=4_294_967_295))
}

// The option for an amount of work, at least 1 and at most 4,294,967,295.
fn max_work<'a>(alloc: Global) -> Arg<'a>
    ensures rule { rule_of result ≡ max_work_rule }
    ensures local { result.global ≡ false }
{
    Arg::new(alloc, "max-work")
        .long("max-work")
        .value_name("N")
        .help(
            "At most how many objects, lists and leaves the answers to one line have, from 1 to 4294967295; more are refused; no bound if left out",
        )
        .value_parser(clap::value_parser!(u32).range(1..=4_294_967_295))
}

// A flag.
fn explain<'a>(alloc: Global) -> Arg<'a>
    ensures rule { rule_of result ≡ explain_rule }
    ensures local { result.global ≡ false }
{
    Arg::new(alloc, "explain")
        .long("explain")
        .action(ArgAction::SetTrue)
        .help("Where a fault ends the run, say in a second line in which file it is, and where")
}

// The option for the file of a trace.
fn trace<'a>(alloc: Global) -> Arg<'a>
    ensures rule { rule_of result ≡ trace_rule }
    ensures local { result.global ≡ false }
{
    Arg::new(alloc, "trace").long("trace").value_name("F").help(
        "Write a line of JSON for each request line to this file: the batches that were asked for it, round by round",
    )
}

// An option for a file.
fn schema<'a>(alloc: Global) -> Arg<'a>
    ensures rule { rule_of result ≡ schema_rule }
    ensures local { result.global ≡ false }
{
    Arg::new(alloc, "schema")
        .long("schema")
        .value_name("F")
        .help("The file of the schema")
        .required(true)
}

fn bindings<'a>(alloc: Global) -> Arg<'a>
    ensures rule { rule_of result ≡ bindings_rule }
    ensures local { result.global ≡ false }
{
    Arg::new(alloc, "bindings")
        .long("bindings")
        .value_name("F")
        .help("The file that says how the fields are answered")
        .required(true)
}

fn requests<'a>(alloc: Global) -> Arg<'a>
    ensures rule { rule_of result ≡ requests_rule }
    ensures local { result.global ≡ false }
{
    Arg::new(alloc, "REQUESTS")
        .required(true)
        .help("The file of the request lines")
}

fn tables<'a>(alloc: Global) -> Arg<'a>
    ensures rule { rule_of result ≡ table_rule }
    ensures local { result.global ≡ false }
{
    Arg::new(alloc, "NAME=F").action(ArgAction::Append).help(
        "A table by its name, and its CSV file; any number of these",
    )
}

// End of the help.
const MORE_HELP: &str = "\
Without any word it serves a built-in sample world from standard input: users with their best friends, posts and likes.

Exit status:
  0  every line was answered, or help or the version was asked for
  2  the command line is refused
  3  the schema, the bindings or a table is refused
  4  a file can't be opened or read, a line is too long, or an answer or the trace can't be written
  5  memory was refused

Examples:
  query_cli --schema schema.graphql --bindings bindings.txt requests.jsonl users=users.csv
  echo '{\"query\":\"{user(id:1){name}}\"}' | query_cli";

/// The command, whose words begin after the command's name.
pub fn command<'a>(alloc: Global) -> Result<Command<'a>, AllocError>
    ensures { IfOk result (λ c. app_of c ≡ command_line) }
{
    Command::new(alloc, "query_cli")
        .version("0.1.0")
        .about("Answers GraphQL queries over tables, a request line by an answer line")
        .after_help(MORE_HELP)
        .no_binary_name(true)
        .arg(schema(alloc))?
        .arg(bindings(alloc))?
        .arg(workers(alloc))?
        .arg(max_batch(alloc))?
        .arg(max_answer(alloc))?
        .arg(max_work(alloc))?
        .arg(explain(alloc))?
        .arg(trace(alloc))?
        .arg(requests(alloc))?
        .arg(tables(alloc))
}
