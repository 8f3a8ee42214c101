//! Out of memory. This test passes whichever allocation is refused.
use crate::tests::calls::open;
use std::test::Fail;
use tag_queue::QueueOpenFault;

#[test]
fn want_of_memory_is_told(rt: HostRuntime) -> Result<(), Fail> {
    let mut board = match open(rt.alloc(), (8, 3, 2)) {
        Ok(board) => board,
        Err(fault) => {
            assert_eq!(rt; fault, QueueOpenFault::Memory);
            return Ok(());
        }
    };
    if let Ok(bits) = board.busy(rt.alloc(), 0) {
        assert_eq!(rt; bits.as_slice(), [0u64].as_slice());
    }
    if let Ok((resized, board)) = board.resize(rt.alloc(), 16) {
        assert_eq!(rt; resized, Ok(()));
        assert_eq!(rt; board.close().got, 0);
    }
    Ok(())
}
