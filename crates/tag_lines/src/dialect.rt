//! Which commands a script may use.
ghost use Rattle.std.specs.Prelude.{◌≡◌};
ghost use Rattle.tag_lines.specs.Dialects.{only_shared};

/// Which commands a script may use.
#[derive(Clone, Copy, Debug, PartialEq, Eq)]
pub enum Dialect {
    /// Those of a single caller on plain words.
    Plain,
    /// Those of `Plain`, and those that need a shared map: reserved tags, posts, waits and resizes.
    Shared,
}

impl Dialect {
    /// The item in a script over a shared map, `None` in a plain one.
    pub(crate) fn only_shared<T: Drop>(self, item: T) -> Option<T>
        ensures { result ≡ only_shared self item }
    {
        match self {
            Dialect::Plain => None,
            Dialect::Shared => Some(item),
        }
    }
}
