//! Services, which answer lines.

use world::World;

/// Holds what answers lines: a world, how long an answer may be, and how much work what is asked together may be.
#[derive(Clone, Copy)]
pub struct Service<'w> {
    /// The world that is asked.
    pub world: &'w World,
    /// Greatest number of bytes of the text of a plan's answer, and of each value of an array by itself. A longer one is
    /// refused with `answer too long`. `None`: there is no limit. Refusals aren't measured.
    pub max_answer: Option<usize>,
    /// Greatest work of what is asked together: of a request, or of the requests of an array in sum. More is refused with
    /// `too much work`, for each plan. `None`: there is no limit. Refusals aren't measured.
    pub max_work: Option<usize>,
}
