//! What a walk over a plan comes to that writes in steps: the text of an answer of which nothing is missing.

ghost use Rattle.std.specs.Prelude.{◌≡◌};
ghost use Rattle.gq_resolve.specs.Stepped.{nothing_put, output_of};

use crate::completed_text::CompletedText;
use load_memory::KeyRef;
use plan_program::LeafValue;
use plan_walk::positions::{Items, Leaf, MemberPosition, Nullability, Onward, PositionKind};
use plan_walk::sink::Sink;
use std::alloc::{AllocError, Global};

/// Holds the text of what a walk over a plan has put, where nothing is missing: no position of it waits.
#[derive(Drop)]
pub struct SteppedOutput {
    pub text: CompletedText,
    /// Says how many loads were read. It stays at `u64::MAX`.
    pub loads: u64,
}

impl SteppedOutput {
    /// The start of an answer that may have `most` bytes.
    pub fn new(alloc: Global, most: usize) -> SteppedOutput
        ensures { output_of result ≡ nothing_put most }
    {
        SteppedOutput {
            text: CompletedText::new(alloc, most),
            loads: 0,
        }
    }
}

impl Sink for SteppedOutput {
    ghost use Rattle.gq_resolve.specs.Stepped.{Writes, output_of, writes-none, writes-more};

    ghost goes = { λ v ps old new. Writes ps (output_of old) (output_of new) };

    ghost below = { λ n s. Unit {0} };

    ghost waits = { λ s. 0 };

    fn begin(&mut self, kind: PositionKind) -> Result<(), AllocError> {
        self.text.begin(kind)
    }

    fn end(&mut self, kind: PositionKind, nullability: Nullability) -> Result<(), AllocError> {
        self.text.end(kind, nullability)
    }

    fn field(&mut self, position: &MemberPosition) -> Result<(), AllocError> {
        self.text.field(position)
    }

    fn item(&mut self, items: Items, number: usize) -> Result<(), AllocError> {
        self.text.item(items, number)
    }

    fn leaf_value(
        &mut self,
        leaf_value: &LeafValue,
        nullability: Nullability,
    ) -> Result<(), AllocError> {
        self.text.leaf_value(leaf_value, nullability)
    }

    fn cell(&mut self, leaf: Leaf<'_>, nullability: Nullability) -> Result<(), AllocError> {
        self.text.cell(leaf, nullability)
    }

    fn loads(&mut self, count: usize) {
        self.loads = self.loads.saturating_add(count as u64);
    }

    fn waiting(&self) -> usize {
        0
    }

    fn wait(
        &mut self,
        _onward: Onward,
        _loader: usize,
        _key: KeyRef<'_>,
    ) -> Result<(), AllocError> {
        Ok(())
    }

    ghost none = { λ v s. writes-none (output_of s) };

    ghost more = { λ v ps qs a b c. writes-more ps qs (output_of a) (output_of b) (output_of c) };

    ghost rises = { λ n m s le h. h };

    ghost stays = { λ v ps a b h w. w };

    ghost narrow = { λ v w n ps a b le same below held h. h };
}
