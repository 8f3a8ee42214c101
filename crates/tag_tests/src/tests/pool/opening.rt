//! Opening a pool.
use crate::tests::answers::Answer::{Refused, Tag};
use crate::tests::calls::Call::{Get, GetReserved, Read};
use crate::tests::shared::stages::{expect_steps, pool};
use crate::tests::stage::Stage;
use crate::tests::steps::Step::{Calls, Count};
use std::alloc::Global;
use std::test::Fail;
use tag_pool::TagFault::{NoSuchTag, NotHeld};
use tag_pool::{Kind, OpenFault, Options, Pool};

/// Returns the faults of opening a pool with these options, and of opening it with its hands placed.
fn refusals(alloc: Global, options: Options) -> (Option<OpenFault>, Option<OpenFault>) {
    (
        Pool::open(alloc, options, 0u64).err(),
        Pool::open_placed(alloc, options, 0u64).err(),
    )
}

#[test]
fn a_pool_is_refused_for_its_first_fault(rt: HostRuntime) {
    let lasting = Options {
        life: (1 << 48) + 1,
        ..Options::new(4, 1).with_reserved(1)
    };
    let crowded = Options {
        hands: 65,
        ..lasting
    };
    let wide = Options {
        hands: 0,
        ..lasting.with_shift(7)
    };
    let short = wide.with_reserved(5);
    let deep = Options {
        depth: 10_241,
        reserved: 10_242,
        ..wide
    };
    for (options, fault) in [
        (deep, OpenFault::TotalTooLarge),
        (short, OpenFault::ReservedTooLarge),
        (wide, OpenFault::ShiftTooLarge),
        (wide.with_shift(6), OpenFault::CallerCount),
        (crowded, OpenFault::CallerCount),
        (lasting, OpenFault::LifeTooLong),
    ] {
        assert_eq!(rt;
            refusals(rt.alloc(), options),
            (Some(fault), Some(fault)),
            "with {options:?}"
        );
    }
}

#[test]
fn a_pool_opens_with_as_many_hands_as_asked(rt: HostRuntime) -> Result<(), Fail> {
    expect_steps(
        &rt,
        pool(0, 0, 1),
        &[Count(1), Calls(&[(0, Read(0), Refused(NoSuchTag))])],
    )?;
    expect_steps(
        &rt,
        pool(10_240, 100, 64).in_words(6),
        &[
            Count(64),
            Calls(&[
                (0, Read(10_240), Refused(NoSuchTag)),
                (0, Read(10_239), Refused(NotHeld)),
            ]),
        ],
    )
}

#[test]
fn words_are_for_the_hands_if_asked(rt: HostRuntime) -> Result<(), Fail> {
    let many = Options::new(160, 16).with_reserved(32);
    let by_hands = many.with_words_by_hands();
    for (options, ordinary, reserved) in [
        (many, 5, 3),
        (by_hands, 3, 1),
        (by_hands.with_shift(4), 4, 4),
        (
            Options {
                hands: 4,
                ..by_hands
            },
            5,
            3,
        ),
    ] {
        let (pool, hands) = Pool::open(rt.alloc(), options, 0u64)?;
        assert_eq!(rt; hands.len(), options.hands as usize);
        assert_eq!(rt;
            pool.layout(Kind::Ordinary).shift(),
            ordinary,
            "with {options:?}"
        );
        assert_eq!(rt;
            pool.layout(Kind::Reserved).shift(),
            reserved,
            "with {options:?}"
        );
    }
    Ok(())
}

#[test]
fn hands_opened_placed_begin_in_their_own_parts(rt: HostRuntime) -> Result<(), Fail> {
    Stage::of_pool_placed(rt.alloc(), pool(72, 8, 4))?.play(
        &rt,
        &[Calls(&[
            (0, Get, Tag(8)),
            (1, Get, Tag(24)),
            (2, Get, Tag(40)),
            (3, Get, Tag(56)),
            (0, GetReserved, Tag(0)),
            (1, GetReserved, Tag(2)),
            (2, GetReserved, Tag(4)),
            (3, GetReserved, Tag(6)),
        ])],
    )?;
    Ok(())
}
