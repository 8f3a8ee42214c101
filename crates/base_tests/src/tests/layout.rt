//! Values from outside the contracts.
use std::test::Fail;
use tag_layout::LayoutFault::{DepthTooLarge, ShiftTooLarge};
use tag_layout::{Layout, first_clear};

/// Returns the depth of the last word, if there are words.
fn last_depth(layout: Layout) -> Option<u32> {
    let last = layout.words().checked_sub(1)?;
    Some(layout.word_depth(last))
}

#[test]
fn depths_have_their_default_shift(rt: HostRuntime) -> Result<(), Fail> {
    for (depth, shift, words, last) in [
        // No tags have no words.
        (0, 6, 0, None),
        (3, 6, 1, Some(3)),
        (4, 0, 4, Some(1)),
        (255, 5, 8, Some(31)),
        (256, 6, 4, Some(64)),
    ] {
        let layout = Layout::new(depth, None)?;
        assert!(rt; layout.shift() == Layout::default_shift(depth));
        assert_eq!(rt;
            (
                layout.depth(),
                layout.shift(),
                layout.words(),
                last_depth(layout)
            ),
            (depth, shift, words, last)
        );
    }
    Ok(())
}

#[test]
fn words_are_as_many_as_hands(rt: HostRuntime) -> Result<(), Fail> {
    for (depth, hands, shift) in [
        // Fewer than five hands count as four.
        (1024, 0, 6),
        (1024, 4, 6),
        (128, 4, 5),
        (128, 5, 4),
        // 64 tags for each hand, and one fewer.
        (1024, 16, 6),
        (1023, 16, 5),
        (1024, 64, 4),
        (10_240, 64, 6),
        (64, 64, 0),
        // Fewer tags than hands, and than four.
        (63, 64, 0),
        (4, 64, 0),
        (3, 64, 6),
        (0, 64, 6),
    ] {
        assert_eq!(rt; Layout::shift_by_hands(depth, hands), shift);
        assert_eq!(rt; Layout::by_hands(depth, hands, None)?.shift(), shift);
        assert_eq!(rt; Layout::by_hands(depth, hands, Some(2))?.shift(), 2);
    }
    Ok(())
}

#[test]
fn a_depth_is_refused_before_a_shift(rt: HostRuntime) {
    for (depth, shift, fault) in [
        (8, Some(7), ShiftTooLarge),
        (10_241, None, DepthTooLarge),
        (10_241, Some(7), DepthTooLarge),
    ] {
        let refused = Layout::new(depth, shift).err();
        assert_eq!(rt; (depth, shift, refused), (depth, shift, Some(fault)));
    }
}

#[test]
fn the_last_word_uses_fewer_bits(rt: HostRuntime) -> Result<(), Fail> {
    let layout = Layout::new(10, Some(2))?;
    assert!(rt; layout.words() == 3 && layout.word_depth(2) == 2);
    assert!(rt; layout.usable(1) == 0b1111 && layout.usable(2) == 0b0011);
    assert_eq!(rt;
        [
            layout.depth(),
            layout.word_of(9),
            layout.place_of(9),
            layout.tag_at(2, 1)
        ],
        [10, 2, 1, 9]
    );
    Ok(())
}

#[test]
fn batches_are_an_eighth_from_one_to_eight(rt: HostRuntime) -> Result<(), Fail> {
    for (depth, shift, min_shallow, batch) in [
        (7, None, None, 1),
        (16, None, None, 2),
        (64, None, None, 8),
        (1_000, None, None, 8),
        (64, Some(4), Some(4), 1),
        (64, Some(4), Some(20), 2),
    ] {
        let found = Layout::new(depth, shift)?.wake_batch(min_shallow);
        assert_eq!(rt; (depth, min_shallow, found), (depth, min_shallow, batch));
    }
    Ok(())
}

#[test]
fn a_shallow_depth_is_shared_out_over_the_words(rt: HostRuntime) -> Result<(), Fail> {
    let layout = Layout::new(10, Some(2))?;
    assert!(rt; layout.words() == 3);
    for (shallow, limits) in [
        (1, [0, 0, 1]),
        (3, [1, 1, 1]),
        (4, [1, 2, 1]),
        (11, [4, 4, 2]),
    ] {
        let found = [
            layout.shallow_limit(0, shallow),
            layout.shallow_limit(1, shallow),
            layout.shallow_limit(2, shallow),
        ];
        assert_eq!(rt; (shallow, found), (shallow, limits));
    }
    Ok(())
}

#[test]
fn the_first_clear_place_is_found(rt: HostRuntime) {
    for (word, from, limit, found) in [
        (0b1011, 0, 4, Some(2)),
        (0b1011, 3, 4, None),
        (0, 5, 5, None),
        (u64::MAX, 0, 64, None),
        (u64::MAX >> 1, 0, 64, Some(63)),
    ] {
        assert_eq!(rt;
            (word, from, first_clear(word, from, limit)),
            (word, from, found)
        );
    }
}
