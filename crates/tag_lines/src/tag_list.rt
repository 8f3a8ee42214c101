//! Lists of tags, as they appear in a line.
ghost use Rattle.std.specs.Prelude.{◌≡◌, ◌^◌, IfOk};
ghost use Rattle.tag_lines.specs.Lines.{parts_of, numbers_below};

use crate::lines::cut_word;
use crate::numbers::short_number;
use std::alloc::{AllocError, Global};
use std::marker::Model;

/// A list of tags. Contracts see the list itself. It is boxed because most orders have none, so that orders stay small.
#[derive(Debug, Drop)]
pub struct TagList(Box<Vec<u32>>);

impl Model for TagList {
    ghost use Rattle.std.specs.Prelude.{ℕ, List};

    ghost Value = { List ℕ };

    ghost view = { λ tags. tags.0.value.items };
}

impl TagList {
    /// The tags in order.
    pub fn as_slice(&self) -> &[u32]
        ensures { result.now ≡ self.now }
    {
        self.0.as_slice()
    }
}

/// The number of a list's first word in its line.
const FIRST: u64 = 3;

/// Parses the numbers of a list, separated by single blanks, if each fits in 32 bits. Otherwise the error is the number
/// that the first word that does not has in its line.
pub fn read_tags(alloc: Global, words: &[u8]) -> Result<Result<TagList, u64>, AllocError>
    ensures { IfOk result (λ tags. tags ≡ numbers_below (2 ^ 32) FIRST (parts_of words.now)) }
{
    let mut tags = Vec::new(alloc);
    let mut rest = words;
    loop {
        let (word, after) = cut_word(rest);
        match short_number(word) {
            Some(tag) => tags.push(tag)?,
            None => return Ok(Err(FIRST + tags.len() as u64)),
        }
        rest = match after {
            Some(after) => after,
            None => return Ok(Ok(TagList(Box::new(alloc, tags)?))),
        };
    }
}
