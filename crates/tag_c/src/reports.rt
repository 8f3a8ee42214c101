//! Reports through the handle of a pool, which spend no hand and are made at any time. Each call is described in tags.h.
ghost use Rattle.std.specs.Prelude.{◌≡◌, ◌*◌};
ghost use Rattle.std.specs.Arc.{arc_value};
ghost use Rattle.tag_c.specs.Codes.{IsRefusal};
ghost use Rattle.tag_c.specs.Reports.{ReportsBy, TellsBusy, TellsShown};

use crate::codes::number_code;
use crate::handle::Handle;
use crate::looks::Sizes;
use crate::object::Kind as Behind;
use crate::pool::OpenPool;
use crate::status::Status;
use tag_pool::Kind;

impl OpenPool {
    /// Returns how many tags of both sets are busy. Bit `tag % 64` of `into[tag / 64]` becomes 1 for each of them, and
    /// every other bit becomes 0.
    fn busy(&self, into: &mut [u64]) -> i32
        ensures tells { TellsBusy into.old into.new result (arc_value self.now.shared).tags }
        ensures kept { IsRefusal result → into.new ≡ into.old }
    {
        if (self.shared.total as usize).div_ceil(u64::BITS as usize) > into.len() {
            return Status::TooSmall.code();
        }
        number_code(self.shared.tags.peek_busy(into))
    }

    /// Writes the sizes of the ordinary set if `kind` is 0, and of the reserved set if it is 1.
    fn show(&self, kind: u32, sizes: &mut Sizes) -> i32
        ensures tells { TellsShown kind sizes.new result (arc_value self.now.shared).tags }
        ensures kept { IsRefusal result → sizes.new ≡ sizes.old }
    {
        let kind = match kind {
            0 => Kind::Ordinary,
            1 => Kind::Reserved,
            _ => return Status::BadKind.code(),
        };
        let shown = self.shared.tags.peek_show(kind);
        *sizes = Sizes {
            depth: shown.depth,
            busy: shown.busy,
            cleared: shown.cleared,
            bits_per_word: shown.bits_per_word,
            words: shown.map_nr,
        };
        0
    }
}

/// Makes a report of the pool behind a handle. An empty handle and a hand are refused.
macro_rules! on_pool {
    ($handle:ident . $report:ident ( $($argument:expr),* )) => {
        match $handle.lend() {
            Some(object) => match &object.kind {
                Behind::Pool(pool) => pool.$report($($argument),*),
                Behind::Member(_) | Behind::Cached(_) => Status::BadHandle.code(),
            },
            None => Status::BadHandle.code(),
        }
    };
}

#[unsafe(no_mangle)]
pub extern "C" fn tags_pool_busy(pool: &mut Handle, into: &mut [u64]) -> i32
    ensures tells { ReportsBy (TellsBusy into.old into.new result) result pool.old.object.value }
    ensures same { pool.new.object.value ≡ pool.old.object.value }
    ensures kept { IsRefusal result → into.new ≡ into.old }
{
    on_pool!(pool.busy(into))
}

#[unsafe(no_mangle)]
pub extern "C" fn tags_pool_show(pool: &mut Handle, kind: u32, sizes: &mut Sizes) -> i32
    ensures tells { ReportsBy (TellsShown kind sizes.new result) result pool.old.object.value }
    ensures same { pool.new.object.value ≡ pool.old.object.value }
    ensures kept { IsRefusal result → sizes.new ≡ sizes.old }
{
    on_pool!(pool.show(kind, sizes))
}
