//! What a walk over a plan comes to: the text of the answer, and the positions that wait.

ghost use Rattle.std.specs.Prelude.{◌≡◌, [], IfOk};
ghost use Rattle.gq_resolve.specs.AnswerTexts.{IsTextOf};

use crate::answer_text::AnswerText;
use load_memory::KeyRef;
use plan_program::LeafValue;
use plan_walk::positions::{Items, Leaf, MemberPosition, Nullability, Onward, PositionKind};
use plan_walk::sink::Sink;
use plan_walk::waiting::Waiting;
use std::alloc::{AllocError, Global};

/// A limit that no text reaches.
pub const NO_LIMIT: usize = usize::MAX;

/// Holds the text of what a walk over a plan has put, and the positions that wait. It writes only while nothing waits.
#[derive(Drop)]
pub struct Output {
    pub text: AnswerText,
    pub blocked: Waiting,
    /// Says how many loads were read. It stays at `u64::MAX`.
    pub loads: u64,
}

impl Output {
    /// The start of an answer, up to its data, that may have `most` bytes.
    pub fn new(alloc: Global, most: usize) -> Result<Output, AllocError>
        ensures text { IfOk result (λ out. IsTextOf most [] out.text) }
        ensures blocked { IfOk result
            (λ out. out.blocked ≡ []) }
        ensures loads { IfOk result (λ out. out.loads ≡ 0) }
    {
        Ok(Output {
            text: AnswerText::new(alloc, most)?,
            blocked: Waiting::new(alloc),
            loads: 0,
        })
    }

    /// Nothing is written: only the positions that wait are noted.
    pub fn waiting_only(alloc: Global) -> Output
        ensures blocked { result.blocked ≡ [] }
    {
        Output {
            text: AnswerText::nothing(alloc),
            blocked: Waiting::new(alloc),
            loads: 0,
        }
    }
}

impl Sink for Output {
    ghost use Rattle.gq_resolve.specs.Outputs.{Puts, IsWithin, count_waiting};
    ghost use Rattle.gq_resolve.specs.Composing.{puts-none, puts-more, within-rises, within-stays, puts-narrow};

    ghost goes = { Puts };

    ghost below = { IsWithin };

    ghost waits = { count_waiting };

    fn begin(&mut self, kind: PositionKind) -> Result<(), AllocError> {
        self.text.begin(kind)
    }

    fn end(&mut self, kind: PositionKind, nullability: Nullability) -> Result<(), AllocError> {
        self.text.end(kind, nullability)
    }

    fn field(&mut self, position: &MemberPosition) -> Result<(), AllocError> {
        self.text.field(position)
    }

    fn item(&mut self, items: Items, number: usize) -> Result<(), AllocError> {
        self.text.item(items, number)
    }

    fn leaf_value(
        &mut self,
        leaf_value: &LeafValue,
        nullability: Nullability,
    ) -> Result<(), AllocError> {
        self.text.leaf_value(leaf_value, nullability)
    }

    fn cell(&mut self, leaf: Leaf<'_>, nullability: Nullability) -> Result<(), AllocError> {
        self.text.cell(leaf, nullability)
    }

    fn loads(&mut self, count: usize) {
        self.loads = self.loads.saturating_add(count as u64);
    }

    fn waiting(&self) -> usize {
        self.blocked.len()
    }

    fn wait(&mut self, onward: Onward, loader: usize, key: KeyRef<'_>) -> Result<(), AllocError> {
        self.text.give_up();
        self.blocked.note(onward, loader, key)
    }

    ghost none = { puts-none };

    ghost more = { puts-more };

    ghost rises = { within-rises };

    ghost stays = { within-stays };

    ghost narrow = { puts-narrow };
}
