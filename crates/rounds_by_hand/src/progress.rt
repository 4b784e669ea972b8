//! How far a call brings what was asked for.
ghost use Rattle.std.specs.Prelude.{◌≡◌, Ok, IfOk, IfSome, IsSome, OnErr};
ghost use Rattle.rounds_by_hand.specs.Progress.{Becomes, done_in};

/// Says what a call did that goes on with rounds by hand.
#[derive(Drop)]
pub enum Progress<T> {
    /// Nothing is missing any more: what was asked for.
    Done(T),
    /// A new round is out. Its orders wait for their replies.
    Round,
    /// Nothing was asked: steps are left to do before the next round or the answer. The call is to be made again.
    Working,
    /// Nothing: an order of the round that is out has no reply.
    Waiting,
    /// Nothing: it was done before, or memory ran out.
    Over,
}

impl<T> Progress<T> {
    /// What was asked for, if the call gave it.
    pub fn into_done(self) -> Option<T>
        ensures { result ≡ done_in self }
    {
        match self {
            Progress::Done(done) => Some(done),
            Progress::Round | Progress::Working | Progress::Waiting | Progress::Over => None,
        }
    }

    /// The same progress, with what is made of what was asked for.
    ///
    /// # Errors
    ///
    /// Those of `make`.
    pub fn try_map<U, X, F: FnOnce(T) -> Result<U, X>>(self, make: F) -> Result<Progress<U>, X>
        requires { IfSome (done_in self) (F.pre make) }
        ensures made { IfOk result
            (Becomes (λ done own. F.post make done (Ok own)) self) }
        ensures failed { OnErr result (IsSome (done_in self)) }
    {
        match self {
            Progress::Done(done) => Ok(Progress::Done(make(done)?)),
            Progress::Round => Ok(Progress::Round),
            Progress::Working => Ok(Progress::Working),
            Progress::Waiting => Ok(Progress::Waiting),
            Progress::Over => Ok(Progress::Over),
        }
    }
}
