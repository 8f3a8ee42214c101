//! Opens and closes pools, and gives out and takes back their hands, through handles. Each call is described in tags.h.
ghost use Rattle.std.specs.Prelude.{◌≡◌, ◌≢◌, ℕ, ◌⊎◌, ◌↔◌, pos, IsSome, None, IfOk, IfErr, IfSome, IsTrue, OnErr};
ghost use Rattle.tag_pool.specs.declared.pool.Pool.{Pool};
ghost use Rattle.tag_c.specs.Codes.{code_of};
ghost use Rattle.tag_c.specs.Exports.{HasHand, IsPoolIn, IsMemberIn, Refuses, Ends, IsRefusedJoin};
ghost use Rattle.tag_c.specs.Exports.{OpensPool, RefusesOpen, JoinsKind, JoinsPool, RefusesHandOf, RefusesJoin, RefusesLeave, ClosesPool, RefusesClose};
ghost use Rattle.tag_c.specs.declared.status.Status.TheVariants.{Done, NotEmpty, BadHandle, HandsOut, HandLost, NoBerth};

use crate::handle::Handle;
use crate::object::{Kind, Object};
use crate::options::{read_options, read_sums, read_terms};
use crate::pool::OpenPool;
use crate::status::Status;
use crate::structs::{MAX_CACHE, ROUND_ROBIN, RequestedOptions, Sums, WHILE_HOLDING};
use std::alloc::Global;
use tag_pool::{OpenFault, Totals};

/// The flag for a hand whose gets go on where they left off.
const STAY: u32 = 1;

impl Object {
    /// Takes out a hand of this pool. Fails if this is a hand, if the flags are unknown, or if the pool gives no hand.
    pub(crate) fn join(&mut self, flags: u32) -> Result<Kind, Status>
        ensures ok { IfOk result (JoinsKind flags self.old.kind self.new.kind) }
        ensures why { IfErr result (RefusesHandOf self.old.kind flags) }
        ensures err { OnErr result (self.new ≡ self.old) }
    {
        let Kind::Pool(pool) = &mut self.kind else {
            return Err(Status::BadHandle);
        };
        if flags > STAY {
            return Err(Status::BadFlag);
        }
        pool.join(flags == 0)
    }

    /// Returns whether this is a hand.
    pub(crate) fn is_hand(&self) -> bool
        ensures { IsTrue result ↔ ((tags : Pool ℕ) × IsMemberIn tags self.now.kind) }
    {
        match &self.kind {
            Kind::Member(_) => true,
            Kind::Cached(_) => true,
            Kind::Pool(_) => false,
        }
    }

    /// Puts the hand back into a cell of its pool, once it keeps nothing. `NoBerth` if no cell is free.
    pub(crate) fn leave(self) -> Status
        requires { (tags : Pool ℕ) × IsMemberIn tags self.kind }
        ensures { (result ≡ Done) ⊎ (result ≡ NoBerth) }
    {
        let Object { kind } = self;
        let member = match kind {
            Kind::Pool(_) => return Status::BadHandle,
            Kind::Member(member) => member,
            Kind::Cached(member) => member.into_member(),
        };
        match member.leave() {
            Ok(()) => Status::Done,
            Err(_) => Status::NoBerth,
        }
    }

    /// Returns whether all hands of this pool are back. Fails if this is a hand.
    pub(crate) fn has_all_hands(&self) -> Result<bool, Status>
        ensures ok { IfOk result (λ _. (tags : Pool ℕ) × IsPoolIn tags self.now.kind) }
        ensures err { IfErr result (λ status. (status ≡ BadHandle) × ¬ ((tags : Pool ℕ) × IsPoolIn tags self.now.kind)) }
    {
        match &self.kind {
            Kind::Pool(pool) => Ok(pool.has_all_hands()),
            Kind::Member(_) | Kind::Cached(_) => Err(Status::BadHandle),
        }
    }

    /// Closes the pool and returns its totals. `None` if this is a hand, or if a hand of the pool is out or missing.
    pub(crate) fn close(self) -> Option<Totals>
        ensures { IfSome result (Ends self.kind) }
    {
        let Object { kind } = self;
        match kind {
            Kind::Member(_) | Kind::Cached(_) => None,
            Kind::Pool(pool) => match pool.close() {
                Ok(totals) => totals,
                Err(_) => None,
            },
        }
    }
}

/// Opens a pool into an empty handle. Its hands keep up to `most` tags each, always if `keeping` is 0, and while they hold
/// another one if it is 1.
fn open_into(
    alloc: Global,
    pool: &mut Handle,
    requested: &RequestedOptions,
    most: u32,
    keeping: u32,
) -> i32
    ensures opens { result ≡ pos 0 → OpensPool requested.now most keeping pool.new.object.value }
    ensures not_empty { IsSome pool.old.object.value → result ≡ code_of NotEmpty }
    ensures why { result ≢ pos 0 → Refuses (RefusesOpen pool.old.object.value requested.now most keeping) result }
    ensures refused { result ≢ pos 0 → pool.new.object.value ≡ pool.old.object.value }
{
    if pool.full != 0 {
        return Status::NotEmpty.code();
    }
    if requested.flags > ROUND_ROBIN {
        return Status::BadFlag.code();
    }
    if keeping > WHILE_HOLDING {
        return Status::BadFlag.code();
    }
    if most > MAX_CACHE {
        return Status::CacheTooLarge.code();
    }
    let opened = match OpenPool::open(alloc, read_options(requested), read_terms(most, keeping)) {
        Ok(opened) => opened,
        Err(fault) => return Status::NotOpened(fault).code(),
    };
    let Ok(object) = Box::new(
        alloc,
        Object {
            kind: Kind::Pool(opened),
        },
    ) else {
        return Status::NotOpened(OpenFault::Memory).code();
    };
    *pool = Handle::of(object);
    Status::Done.code()
}

#[unsafe(no_mangle)]
pub extern "C" fn tags_open(alloc: Global, pool: &mut Handle, requested: &RequestedOptions) -> i32
    ensures opens { result ≡ pos 0 → OpensPool requested.now 0 0 pool.new.object.value }
    ensures not_empty { IsSome pool.old.object.value → result ≡ code_of NotEmpty }
    ensures why { result ≢ pos 0 → Refuses (RefusesOpen pool.old.object.value requested.now 0 0) result }
    ensures refused { result ≢ pos 0 → pool.new.object.value ≡ pool.old.object.value }
{
    open_into(alloc, pool, requested, 0, 0)
}

#[unsafe(no_mangle)]
pub extern "C" fn tags_open_cached(
    alloc: Global,
    pool: &mut Handle,
    requested: &RequestedOptions,
    most: u32,
    keeping: u32,
) -> i32
    ensures opens { result ≡ pos 0 → OpensPool requested.now most keeping pool.new.object.value }
    ensures not_empty { IsSome pool.old.object.value → result ≡ code_of NotEmpty }
    ensures why { result ≢ pos 0 → Refuses (RefusesOpen pool.old.object.value requested.now most keeping) result }
    ensures refused { result ≢ pos 0 → pool.new.object.value ≡ pool.old.object.value }
{
    open_into(alloc, pool, requested, most, keeping)
}

#[unsafe(no_mangle)]
pub extern "C" fn tags_join(alloc: Global, pool: &mut Handle, hand: &mut Handle, flags: u32) -> i32
    ensures joins { result ≡ pos 0 → JoinsPool flags pool.old.object.value pool.new.object.value hand.new.object.value }
    ensures not_empty { IsSome hand.old.object.value → result ≡ code_of NotEmpty }
    ensures why { result ≢ pos 0 → Refuses (RefusesJoin pool.old.object.value hand.old.object.value flags) result }
    ensures pool { result ≢ pos 0 → IsRefusedJoin result pool.old.object.value pool.new.object.value }
    ensures refused { result ≢ pos 0 → hand.new.object.value ≡ hand.old.object.value }
{
    if hand.full != 0 {
        return Status::NotEmpty.code();
    }
    let Some(object) = pool.lend() else {
        return Status::BadHandle.code();
    };
    let kind = match object.join(flags) {
        Ok(kind) => kind,
        Err(status) => return status.code(),
    };
    match Box::new(alloc, Object { kind }) {
        Ok(made) => {
            *hand = Handle::of(made);
            Status::Done.code()
        }
        Err(failed) => {
            failed.value.leave();
            Status::NotOpened(OpenFault::Memory).code()
        }
    }
}

#[unsafe(no_mangle)]
pub extern "C" fn tags_leave(alloc: Global, hand: &mut Handle) -> i32
    ensures leaves { HasHand hand.old.object.value → hand.new.object.value ≡ None }
    ensures why { result ≢ pos 0 → Refuses (RefusesLeave hand.old.object.value) result }
    ensures bad_handle { ¬ (HasHand hand.old.object.value) → result ≡ code_of BadHandle }
    ensures refused { result ≡ code_of BadHandle → hand.new.object.value ≡ hand.old.object.value }
{
    let Some(object) = hand.take(alloc) else {
        return Status::BadHandle.code();
    };
    if !object.is_hand() {
        *hand = Handle::of(object);
        return Status::BadHandle.code();
    }
    Box::into_inner(object).leave().code()
}

#[unsafe(no_mangle)]
pub extern "C" fn tags_close(alloc: Global, pool: &mut Handle, sums: &mut Sums) -> i32
    ensures closes { result ≡ pos 0 → ClosesPool pool.old.object.value sums.new × (pool.new.object.value ≡ None) }
    ensures why { result ≢ pos 0 → Refuses (RefusesClose pool.old.object.value) result }
    ensures sums { result ≢ pos 0 → sums.new ≡ sums.old }
    ensures lost { result ≡ code_of HandLost → pool.new.object.value ≡ None }
    ensures bad_handle { result ≡ code_of BadHandle → pool.new.object.value ≡ pool.old.object.value }
    ensures hands_out { result ≡ code_of HandsOut → pool.new.object.value ≡ pool.old.object.value }
{
    let Some(object) = pool.take(alloc) else {
        return Status::BadHandle.code();
    };
    let refused = match object.has_all_hands() {
        Ok(true) => {
            let Some(totals) = Box::into_inner(object).close() else {
                return Status::HandLost.code();
            };
            *sums = read_sums(totals);
            return Status::Done.code();
        }
        Ok(false) => Status::HandsOut,
        Err(status) => status,
    };
    *pool = Handle::of(object);
    refused.code()
}
