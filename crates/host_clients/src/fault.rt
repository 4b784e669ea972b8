//! Faults: why a call is refused.
ghost use Rattle.std.specs.Prelude.{◌≡◌, IfSome, IfNone};
ghost use Rattle.host_clients.specs.Faults.{code_of};
ghost use Rattle.host_clients.specs.declared.fault.Fault.{Fault as FaultOf};

use flat_orders::WrongSize;
use flat_rows::FlatFault;
use load_queue::QueueFault;
use load_rounds::SessionFault;
use rounds_by_hand::TakeFault;
use std::alloc::AllocError;

/// Reason why a call is refused.
#[derive(Clone, Copy, Debug, PartialEq, Eq)]
pub enum Fault {
    /// Out of memory.
    NoMemory,
    /// The handle is empty, or holds an object of another kind.
    BadHandle,
    /// A text isn't UTF-8.
    NotUtf8,
    /// The schema or the bindings are refused.
    BadSchema,
    /// A buffer or a list hasn't the size that is wanted.
    BadSize,
    /// A limit of over 65,535 keys.
    BadLimit,
    /// A request is being answered, or keys are loaded.
    Busy,
    /// Nothing is being answered or loaded, or it isn't done yet.
    Idle,
    /// Memory ran out in this request or load.
    Stopped,
    /// No round is out, or it has no order of this number.
    NoOrder,
    /// The order has a reply.
    Replied,
    /// No loader of this number.
    NoLoader,
    /// A key has another number of texts than its loader has columns.
    BadKey,
    /// A text ends before it begins, past the bytes or inside a character, or the last one isn't the bytes' end.
    BadEnds,
    /// Rows for another number of keys than the order has.
    BadCount,
    /// Fewer texts than columns, rows and faults, or keys take.
    TooFewTexts,
    /// More texts than columns, rows and faults, or keys take.
    TextsLeft,
    /// Rows of no column.
    NoColumn,
    /// More than 4,294,967,295 rows in one reply.
    TooManyRows,
    /// Rows in any order lack a column that their loader is by.
    NoKeyColumn,
    /// A row has a key that wasn't asked for.
    NotAsked,
    /// A fault is of no key of the order, or its key doesn't come after that of the fault before.
    BadFaults,
    /// What plans the request is of a server with another number of loaders than the client's.
    OtherServer,
}

impl Fault {
    /// The number by which C knows it: less than 0, and another for each.
    pub fn code(self) -> i32
        ensures { result ≡ code_of self }
    {
        match self {
            Fault::NoMemory => -1,
            Fault::BadHandle => -2,
            Fault::NotUtf8 => -3,
            Fault::BadSchema => -4,
            Fault::BadSize => -5,
            Fault::BadLimit => -6,
            Fault::Busy => -7,
            Fault::Idle => -8,
            Fault::Stopped => -9,
            Fault::NoOrder => -10,
            Fault::Replied => -11,
            Fault::NoLoader => -12,
            Fault::BadKey => -13,
            Fault::BadEnds => -14,
            Fault::BadCount => -15,
            Fault::TooFewTexts => -16,
            Fault::TextsLeft => -17,
            Fault::NoColumn => -18,
            Fault::TooManyRows => -19,
            Fault::NoKeyColumn => -20,
            Fault::NotAsked => -21,
            Fault::BadFaults => -22,
            Fault::OtherServer => -23,
        }
    }

    /// The fault of a code, if there is one.
    pub fn of_code(code: i32) -> Option<Fault>
        ensures some { IfSome result
            (λ fault. code_of fault ≡ code) }
        ensures none { IfNone result
            ((fault : FaultOf) → code_of fault ≡ code → ⊥) }
    {
        match code {
            -1 => Some(Fault::NoMemory),
            -2 => Some(Fault::BadHandle),
            -3 => Some(Fault::NotUtf8),
            -4 => Some(Fault::BadSchema),
            -5 => Some(Fault::BadSize),
            -6 => Some(Fault::BadLimit),
            -7 => Some(Fault::Busy),
            -8 => Some(Fault::Idle),
            -9 => Some(Fault::Stopped),
            -10 => Some(Fault::NoOrder),
            -11 => Some(Fault::Replied),
            -12 => Some(Fault::NoLoader),
            -13 => Some(Fault::BadKey),
            -14 => Some(Fault::BadEnds),
            -15 => Some(Fault::BadCount),
            -16 => Some(Fault::TooFewTexts),
            -17 => Some(Fault::TextsLeft),
            -18 => Some(Fault::NoColumn),
            -19 => Some(Fault::TooManyRows),
            -20 => Some(Fault::NoKeyColumn),
            -21 => Some(Fault::NotAsked),
            -22 => Some(Fault::BadFaults),
            -23 => Some(Fault::OtherServer),
            _ => None,
        }
    }

    /// Its name in C.
    pub fn name(self) -> &'static str {
        match self {
            Fault::NoMemory => "RZ_NO_MEMORY",
            Fault::BadHandle => "RZ_BAD_HANDLE",
            Fault::NotUtf8 => "RZ_NOT_UTF8",
            Fault::BadSchema => "RZ_BAD_SCHEMA",
            Fault::BadSize => "RZ_BAD_SIZE",
            Fault::BadLimit => "RZ_BAD_LIMIT",
            Fault::Busy => "RZ_BUSY",
            Fault::Idle => "RZ_IDLE",
            Fault::Stopped => "RZ_STOPPED",
            Fault::NoOrder => "RZ_NO_ORDER",
            Fault::Replied => "RZ_REPLIED",
            Fault::NoLoader => "RZ_NO_LOADER",
            Fault::BadKey => "RZ_BAD_KEY",
            Fault::BadEnds => "RZ_BAD_ENDS",
            Fault::BadCount => "RZ_BAD_COUNT",
            Fault::TooFewTexts => "RZ_TOO_FEW_TEXTS",
            Fault::TextsLeft => "RZ_TEXTS_LEFT",
            Fault::NoColumn => "RZ_NO_COLUMN",
            Fault::TooManyRows => "RZ_TOO_MANY_ROWS",
            Fault::NoKeyColumn => "RZ_NO_KEY_COLUMN",
            Fault::NotAsked => "RZ_NOT_ASKED",
            Fault::BadFaults => "RZ_BAD_FAULTS",
            Fault::OtherServer => "RZ_OTHER_SERVER",
        }
    }

    /// Returns what it says, in a few words.
    pub fn text(self) -> &'static str {
        match self {
            Fault::NoMemory => "out of memory",
            Fault::BadHandle => "the handle is empty, or holds an object of another kind",
            Fault::NotUtf8 => "a text isn't UTF-8",
            Fault::BadSchema => "the schema or the bindings are refused",
            Fault::BadSize => "a buffer or a list hasn't the size that is wanted",
            Fault::BadLimit => "a limit of over 65,535 keys",
            Fault::Busy => "a request is being answered, or keys are loaded",
            Fault::Idle => "nothing is being answered or loaded, or it isn't done yet",
            Fault::Stopped => "memory ran out in this request or load",
            Fault::NoOrder => "no round is out, or it has no order of this number",
            Fault::Replied => "the order has a reply",
            Fault::NoLoader => "no loader of this number",
            Fault::BadKey => "a key has another number of texts than its loader has columns",
            Fault::BadEnds => {
                "a text ends before it begins, past the bytes or inside a character, or the last one isn't the bytes' end"
            }
            Fault::BadCount => "rows for another number of keys than the order has",
            Fault::TooFewTexts => "fewer texts than columns, rows and faults, or keys take",
            Fault::TextsLeft => "more texts than columns, rows and faults, or keys take",
            Fault::NoColumn => "rows of no column",
            Fault::TooManyRows => "more than 4,294,967,295 rows in one reply",
            Fault::NoKeyColumn => "rows in any order lack a column that their loader is by",
            Fault::NotAsked => "a row has a key that wasn't asked for",
            Fault::BadFaults => {
                "a fault is of no key of the order, or its key doesn't come after that of the fault before"
            }
            Fault::OtherServer => "the queries are of a server with another number of loaders",
        }
    }
}

impl From<AllocError> for Fault {
    ghost use Rattle.std.specs.Prelude.{◌≡◌};
    ghost use Rattle.host_clients.specs.declared.fault.Fault.TheVariants.{NoMemory};

    ghost from_gives = { λ _ e. e ≡ NoMemory };

    fn from(_e: AllocError) -> Fault {
        Fault::NoMemory
    }
}

impl From<FlatFault> for Fault {
    ghost use Rattle.std.specs.Prelude.{◌≡◌};
    ghost use Rattle.host_clients.specs.Faults.{flat_fault};

    ghost from_gives = { λ e fault. fault ≡ flat_fault e };

    fn from(e: FlatFault) -> Fault {
        match e {
            FlatFault::NotUtf8 => Fault::NotUtf8,
            FlatFault::BadEnds => Fault::BadEnds,
            FlatFault::TooFewTexts => Fault::TooFewTexts,
            FlatFault::TextsLeft => Fault::TextsLeft,
            FlatFault::NoColumn => Fault::NoColumn,
            FlatFault::TooManyRows => Fault::TooManyRows,
            FlatFault::NoMemory => Fault::NoMemory,
        }
    }
}

impl From<TakeFault> for Fault {
    ghost use Rattle.std.specs.Prelude.{◌≡◌};
    ghost use Rattle.host_clients.specs.Faults.{take_fault};

    ghost from_gives = { λ e fault. fault ≡ take_fault e };

    fn from(e: TakeFault) -> Fault {
        match e {
            TakeFault::NoSuchOrder => Fault::NoOrder,
            TakeFault::Replied => Fault::Replied,
            TakeFault::NoMemory => Fault::NoMemory,
        }
    }
}

impl From<SessionFault> for Fault {
    ghost use Rattle.std.specs.Prelude.{◌≡◌};
    ghost use Rattle.host_clients.specs.Faults.{session_fault};

    ghost from_gives = { λ e fault. fault ≡ session_fault e };

    fn from(e: SessionFault) -> Fault {
        match e {
            SessionFault::NoSuchLoader => Fault::NoLoader,
            SessionFault::NoMemory => Fault::NoMemory,
        }
    }
}

impl From<QueueFault> for Fault {
    ghost use Rattle.std.specs.Prelude.{◌≡◌};
    ghost use Rattle.host_clients.specs.Faults.{queue_fault};

    ghost from_gives = { λ e fault. fault ≡ queue_fault e };

    fn from(e: QueueFault) -> Fault {
        match e {
            QueueFault::BadLimit => Fault::BadLimit,
            QueueFault::NoMemory => Fault::NoMemory,
        }
    }
}

impl From<WrongSize> for Fault {
    ghost use Rattle.std.specs.Prelude.{◌≡◌};
    ghost use Rattle.host_clients.specs.declared.fault.Fault.TheVariants.{BadSize};

    ghost from_gives = { λ _ fault. fault ≡ BadSize };

    fn from(_e: WrongSize) -> Fault {
        Fault::BadSize
    }
}
