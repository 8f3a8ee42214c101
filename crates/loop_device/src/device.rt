//! The device of a play: what its threads share.

use crate::device_queue::{DeviceQueue, Tagged};
use crate::store::Store;
use std::sync::Mutex;
use std::sync::atomic::AtomicBool;
use tag_queue::Queue;

/// What the threads of a play share, besides the log and the gate.
#[derive(Drop)]
pub(crate) struct Device<B: Tagged> {
    /// A submitted line is in the slot of its tag.
    pub(crate) tags: Queue<u64>,
    /// Tags that are posted and not yet taken.
    pub(crate) queue: DeviceQueue<B>,
    /// What was carried out.
    pub(crate) store: Mutex<Store>,
    /// Set if nothing more is to be submitted because a thread could not be started.
    pub(crate) stopped: AtomicBool,
    /// Set once all submitters have ended.
    pub(crate) closed: AtomicBool,
}
