//! The object behind a handle.
use crate::cached::CachedMember;
use crate::member::Member;
use crate::pool::OpenPool;

/// A hand, a pool, or a hand with a cache. What comes first is tested for first.
#[derive(Drop)]
pub enum Kind {
    Member(Member),
    Pool(OpenPool),
    Cached(CachedMember),
}

/// The object that a full handle owns.
#[derive(Drop)]
pub struct Object {
    pub kind: Kind,
}

fn must_send<T: Send>(value: T) -> T {
    value
}

/// Shows that an object may be sent to another thread: `must_send` takes only what is `Send`.
pub(crate) fn sends_object(object: Object) -> Object {
    must_send(object)
}
