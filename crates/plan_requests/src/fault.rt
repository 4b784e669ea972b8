//! Faults: why requests have no plan.

ghost use Rattle.std.specs.Prelude.{◌≡◌, IfOk, string_bytes};
ghost use Rattle.plan_requests.specs.Requests.{token_message, parse_message, request_message, request_place};

use gq_check::{CheckFault, PrepareFault};
use gq_lexer::{LexFault, Place};
use gq_parser::ParseFault;
use std::alloc::{AllocError, Global};

/// Reason why a request has no plan.
#[derive(Debug, Drop)]
pub enum RequestFault {
    /// The query isn't a document.
    Parse(ParseFault),
    /// The document is not valid.
    Check(CheckFault),
    /// There is no such operation, or a variable has a bad value.
    Prepare(PrepareFault),
}

fn token_message(fault: &LexFault) -> &'static str
    ensures { result.now ≡ token_message fault.now }
{
    match fault {
        LexFault::TooLong => "document too long",
        LexFault::BadCharacter(_) => "bad character",
        LexFault::UnterminatedString(_) => "unterminated string",
        LexFault::BadEscape(_) => "bad escape",
        LexFault::BadNumber(_) => "bad number",
        LexFault::NoMemory => "out of memory",
    }
}

fn parse_message(fault: &ParseFault) -> &'static str
    ensures { result.now ≡ parse_message fault.now }
{
    match fault {
        ParseFault::Lex(fault) => token_message(fault),
        ParseFault::Unexpected(_) => "unexpected token",
        ParseFault::UnexpectedEnd(_) => "unexpected end",
        ParseFault::TooDeep(_) => "too deep",
        ParseFault::NoMemory => "out of memory",
    }
}

impl RequestFault {
    ghost use Rattle.plan_requests.specs.Requests.{is_want_of_memory, request_message, request_place};

    /// Tells whether it is out of memory. Every other fault is shown to the client.
    pub fn is_want_of_memory(&self) -> bool
        ensures { result ≡ is_want_of_memory self.now }
    {
        matches!(
            self,
            RequestFault::Parse(ParseFault::NoMemory)
                | RequestFault::Check(CheckFault::NoMemory)
                | RequestFault::Prepare(PrepareFault::NoMemory)
        )
    }

    /// The message that a client reads.
    pub fn message(&self, alloc: Global) -> Result<String, AllocError>
        ensures { IfOk result (λ message. string_bytes
            message ≡ request_message self.now) }
    {
        match self {
            RequestFault::Parse(fault) => String::from_str(alloc, parse_message(fault)),
            RequestFault::Check(fault) => fault.to_string(alloc),
            RequestFault::Prepare(fault) => fault.to_string(alloc),
        }
    }

    /// The place that a client is shown, if there is one.
    pub fn place(&self) -> Option<Place>
        ensures { result ≡ request_place self.now }
    {
        match self {
            RequestFault::Parse(fault) => fault.place(),
            RequestFault::Check(fault) => fault.place(),
            RequestFault::Prepare(_) => None,
        }
    }
}
