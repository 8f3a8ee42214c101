//! Opening a queue.
use std::alloc::Global;
use std::test::Fail;
use tag_queue::{MAX_CAP, Options, Queue, QueueHand, QueueOpenFault};

/// Returns the faults of opening a queue with these options and this cap, and of opening it with its hands placed.
fn refusals(
    alloc: Global,
    options: Options,
    cap: u64,
) -> (Option<QueueOpenFault>, Option<QueueOpenFault>) {
    (
        fault_of(Queue::open(alloc, options, cap, 0u64)),
        fault_of(Queue::open_placed(alloc, options, cap, 0u64)),
    )
}

fn fault_of(
    opened: Result<(Queue<u64>, Vec<QueueHand<u64>>), QueueOpenFault>,
) -> Option<QueueOpenFault> {
    match opened {
        Ok(_) => None,
        Err(fault) => Some(fault),
    }
}

#[test]
fn a_queue_is_refused_for_its_first_fault(rt: HostRuntime) {
    let lasting = Options {
        life: (1 << 48) + 1,
        ..Options::new(10_240, 1)
    };
    let deserted = Options {
        hands: 0,
        ..lasting
    };
    let crowded = Options {
        hands: 65,
        ..lasting
    };
    let wide = Options {
        shift: Some(7),
        ..deserted
    };
    let taken = Options {
        reserved: 10_241,
        ..wide
    };
    let deep = Options {
        depth: 10_241,
        reserved: 10_242,
        ..wide
    };
    for (options, fault) in [
        (deep, QueueOpenFault::TotalTooLarge),
        (taken, QueueOpenFault::ReservedTooLarge),
        (wide, QueueOpenFault::ShiftTooLarge),
        (deserted, QueueOpenFault::CallerCount),
        (crowded, QueueOpenFault::CallerCount),
        (lasting, QueueOpenFault::LifeTooLong),
        (Options::new(10_240, 1), QueueOpenFault::CapTooLarge),
    ] {
        assert_eq!(rt;
            refusals(rt.alloc(), options, MAX_CAP + 1),
            (Some(fault), Some(fault)),
            "with {options:?}"
        );
    }
}
