//! How a call reaches the hand behind a handle.
ghost use Rattle.std.specs.Prelude.{ℕ};
ghost use Rattle.tag_pool.specs.declared.pool.Pool.{Pool};
ghost use Rattle.tag_c.specs.Holders.{Holder};
ghost use Rattle.tag_c.specs.Calls.{HandCalls, CacheCalls};

use crate::cached::CachedMember;
use crate::member::Member;

/// A hand, with a cache or without. A call of it has one contract for both.
pub(crate) trait AnyHand {
    // It stays a hand of the same pool, and as a holder of tags it changes by this relation.
    ghost changes: { (Pool ℕ → Holder → Holder → Type 0) → Self → Self → Type 0 };
}

impl AnyHand for Member {
    ghost changes = { HandCalls };
}

impl AnyHand for CachedMember {
    ghost changes = { CacheCalls };
}

/// Makes a call of the hand behind a handle, with a cache or without. An empty handle and a pool are refused.
macro_rules! on_hand {
    ($handle:ident . $call:ident ( $($argument:expr),* )) => {
        match $handle.lend() {
            Some(object) => match &mut object.kind {
                $crate::object::Kind::Member(member) => member.$call($($argument),*),
                $crate::object::Kind::Cached(member) => member.$call($($argument),*),
                $crate::object::Kind::Pool(_) => $crate::status::Status::BadHandle.code(),
            },
            None => $crate::status::Status::BadHandle.code(),
        }
    };
}

pub(crate) use on_hand;
