//! An in-memory store: what was carried out, and the stamps of its sectors.
ghost use Rattle.std.specs.Prelude.{◌≡◌, ◌≤◌, ◌^◌, ◌++◌, ◌∷◌, [], true, IfOk, OnOk, OnErr};
ghost use Rattle.loop_device.specs.Segments.{is_sound, IsRefined};
ghost use Rattle.loop_device.specs.History.{Answers, IsHistory, done_of};
ghost use Rattle.loop_device.specs.Keys.{first_key, end_key, CarriesOut, FitsTypes, LeavesStamp};

use crate::io::{Done, Io, IoKind};
use crate::segments::Segments;
use std::alloc::{AllocError, Global};
use std::marker::Model;

/// Bytes in a sector.
const SECTOR: u128 = 512;

/// Sectors per name; all names lie side by side in one row. No 64-bit offset and length reach beyond them.
const SECTORS_PER_NAME: u128 = 1 << 56;

/// Sectors in the row.
const WIDTH: u128 = 1 << 88;

/// A store, which clauses see as its history: what was carried out, in order.
#[derive(Drop)]
pub struct Store {
    alloc: Global,
    stamps: Segments,
    done: Vec<Done>,
}

impl Model for Store {
    ghost use Rattle.std.specs.Prelude.{List};
    ghost use Rattle.loop_device.specs.declared.io.Done.{Done};
    ghost use Rattle.loop_device.specs.Keys.{IsKept};

    ghost Value = { List Done };

    ghost view = { λ s. s.done.items };

    ghost invariant = { λ s. IsKept s.done.items s.stamps };
}

impl Store {
    /// A store on which nothing has been carried out: every sector's stamp is 0.
    pub fn open(alloc: Global) -> Store
        ensures { result ≡ [] }
    {
        Store {
            alloc,
            stamps: Segments::Leaf(0),
            done: Vec::new(alloc),
        }
    }

    /// What was carried out, in order.
    pub fn history(&self) -> &[Done]
        ensures same { result.now ≡ self.now }
        ensures lawful { IsHistory self.now }
    {
        self.done.as_slice()
    }

    /// Consumes the store and returns what was carried out, in order.
    pub(crate) fn into_history(self) -> Vec<Done>
        ensures same { result.items ≡ self }
        ensures lawful { IsHistory result.items }
    {
        let Store {
            alloc: _,
            stamps: _,
            done,
        } = self;
        done
    }

    /// Carries out a line and returns its stamp: for a write or a trim its line number, for a read the greatest stamp
    /// of its sectors, otherwise 0. A sector's stamp is the line number of the last write or trim that covered it, or 0
    /// if there was none. If memory runs out, nothing changes.
    pub fn carry_out(&mut self, io: &Io) -> Result<u64, AllocError>
        ensures ok { IfOk result (λ stamp. self.new ≡ self.old ++ done_of io.now stamp ∷ []) }
        ensures stamp { IfOk result (Answers self.old io.now) }
        ensures err { OnErr result (self.new ≡ self.old) }
    {
        self.done.reserve(1)?;
        let stamp = answer(&mut self.stamps, self.alloc, io)?;
        self.done.push_reserved(Done { io: *io, stamp });
        Ok(stamp)
    }
}

/// What the line answers. A write or a trim leaves its stamp.
fn answer(stamps: &mut Segments, alloc: Global, io: &Io) -> Result<u64, AllocError>
    requires { is_sound (2 ^ 88) stamps.old ≡ true }
    ensures ok { IfOk result (CarriesOut stamps.old stamps.new io.now) }
    ensures err { OnErr result (IsRefined (2 ^ 88) stamps.old stamps.new) }
{
    if io.kind.leaves_stamp() {
        leave_stamp(stamps, alloc, io)?;
        return Ok(io.line);
    }
    match io.kind {
        IoKind::Read => {
            let (first, end) = span(io);
            Ok(stamps.greatest(WIDTH, first, end))
        }
        _ => Ok(0),
    }
}

/// Leaves the line's number as the stamp of each sector that it covers.
fn leave_stamp(stamps: &mut Segments, alloc: Global, io: &Io) -> Result<(), AllocError>
    requires { is_sound (2 ^ 88) stamps.old ≡ true }
    ensures small { FitsTypes io.now }
    ensures sound { is_sound (2 ^ 88) stamps.new ≡ true }
    ensures ok { OnOk result (LeavesStamp stamps.old stamps.new io.now) }
    ensures err { OnErr result (IsRefined (2 ^ 88) stamps.old stamps.new) }
{
    let (first, end) = span(io);
    stamps.split_at(alloc, WIDTH, first)?;
    stamps.split_at(alloc, WIDTH, end)?;
    stamps.assign(WIDTH, first, end, io.line);
    Ok(())
}

/// The position in the row of the first sector that the line covers, and the position after the last one.
fn span(io: &Io) -> (u128, u128)
    ensures first { result.0 ≡ first_key io.now }
    ensures end { result.1 ≡ end_key io.now }
    ensures small { FitsTypes io.now }
    ensures within { first_key io.now ≤ 2 ^ 88 }
    ensures end_within { end_key io.now ≤ 2 ^ 88 }
{
    let base = u128::from(io.name) * SECTORS_PER_NAME;
    let offset = u128::from(io.offset);
    let first = base + offset / SECTOR;
    if io.length > 0 {
        let last = (offset + u128::from(io.length) - 1) / SECTOR;
        (first, base + last + 1)
    } else {
        (first, first)
    }
}
