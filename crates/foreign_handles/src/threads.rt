//! Types that go to other threads.
ghost use Rattle.std.specs.Prelude.{◌≡◌};

use std::marker::Send;

/// `value` as it is. A call is proved only where `value` may go to another thread.
///
/// An `unsafe impl Send` claims nothing by itself. So a crate of exports passes its handle through
/// here once, and no longer passes the check if the handle or its object ceases to be `Send`.
pub fn sent<T: Send>(value: T) -> T
    ensures { result ≡ value }
{
    value
}
