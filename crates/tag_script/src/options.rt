//! Options of a run.
ghost use Rattle.std.specs.Prelude.{◌≡◌};
ghost use Rattle.tag_script.specs.Script.{dialect_of};
ghost use Rattle.tag_script.specs.SharedScript.{tag_options};

use tag_lines::Dialect;
use tag_queue::Options;

/// The world of a script.
#[derive(Clone, Copy, Debug, PartialEq, Eq)]
pub struct ScriptOptions {
    /// Number of tags, reserved ones included, at most 10,240.
    pub tags: u32,
    /// Number of reserved tags, the lowest ones, at most `tags`. A plain script has none.
    pub reserved: u32,
    /// Binary logarithm of the bits in a whole word, at most 6. `None` selects the default for the number of tags.
    pub shift: Option<u32>,
    /// Whether gets are round robin: each begins after the last tag won.
    pub round_robin: bool,
    /// Least depth of a shallow get. `None` is 1, and so is 0.
    pub min_shallow: Option<u32>,
    /// Number of callers, 1 to 64. A plain script has one.
    pub callers: u32,
    /// Most tags of each set that a caller may win, at most 2^48. A plain script ignores it.
    pub life: u64,
    /// Whether the world is one caller alone with plain words. Otherwise all callers share tags.
    pub plain: bool,
}

impl ScriptOptions {
    /// Returns the dialect of the script, which determines its commands.
    pub(crate) fn dialect(&self) -> Dialect
        ensures { result ≡ dialect_of self.now.plain }
    {
        if self.plain {
            Dialect::Plain
        } else {
            Dialect::Shared
        }
    }

    /// Returns the options with which shared tags are opened.
    pub(crate) fn tag_options(&self) -> Options
        ensures { result ≡ tag_options self.now }
    {
        Options {
            depth: self.tags,
            reserved: self.reserved,
            hands: self.callers,
            shift: self.shift,
            by_hands: false,
            round_robin: self.round_robin,
            min_shallow: self.min_shallow,
            life: self.life,
        }
    }
}

/// The world against which a list of events is checked.
#[derive(Clone, Copy, Debug, PartialEq, Eq)]
pub struct CheckOptions {
    /// Number of tags, at most 10,240.
    pub tags: u32,
    /// Binary logarithm of the bits in a whole word, at most 6. `None` selects the default for the number of tags.
    pub shift: Option<u32>,
    /// Number of callers, 1 to 64.
    pub callers: u32,
}
