//! How many bytes of memory a reading has made, the limit for them, and what a thing is weighed as.
//! What each token adds is said in the grammar; `steps` asks for it before it is made.
ghost use Rattle.std.specs.Prelude.{◌≡◌, ◌≤◌, false, MatchResult};
ghost use Rattle.resb_grammar.specs.Limit as limit;
ghost use Rattle.resb_text.specs.Inner.Content.{IsPaired, tree_of_content};
ghost use Rattle.resb_text.specs.Inner.Quota.{TakesBytes, RunsOver};

use crate::content::Content;
use resb_grammar::Limit;
use resb_tree::{NoMemory, weights};

/// How many bytes were made, how many may be, and whether more were asked for.
#[derive(Drop)]
pub(crate) struct Quota {
    pub limit: Limit,
    made: u64,
    pub is_over: bool,
}

/// A number of a vector, where it is read and in the file.
pub(crate) const NUMBER: u128 = 2 * weights::NUMBER;

/// What is asked for a vector or a binary alone, beside what it holds.
const REQUEST: u128 = 32;

impl Quota {
    /// Nothing is made yet.
    pub(crate) fn new(limit: Limit) -> Quota
        ensures { result ≡ record { limit = limit; made = 0; is_over = false } }
    {
        Quota {
            limit,
            made: 0,
            is_over: false,
        }
    }

    /// So many bytes more are made, or more than the limit were asked for: then it is as if memory
    /// were wanted.
    pub(crate) fn take(&mut self, bytes: u128) -> Result<(), NoMemory>
        requires { self.old.made ≤ self.old.limit.bytes }
        ensures { MatchResult result
            (λ _. TakesBytes self.old self.new bytes) (λ _. RunsOver self.old self.new bytes) }
    {
        if bytes > u128::from(self.limit.bytes - self.made) {
            self.is_over = true;
            return Err(NoMemory);
        }
        self.made += bytes as u64;
        Ok(())
    }

    /// What the `{` of a group that holds items makes.
    pub(crate) fn group_bytes(&self) -> u128
        ensures { result ≡ self.now.limit.weights.group }
    {
        u128::from(self.limit.weights.group)
    }

    /// What a string among items makes.
    pub(crate) fn string_bytes(&self, text: &str) -> u128
        ensures { result ≡ limit.string_bytes self.now.limit.weights text.now }
    {
        u128::from(self.limit.weights.entry) + weights::TEXT_BYTE * text.len() as u128
    }

    /// What the `}` of a group that holds no items makes, before that is made: the numbers of a
    /// vector are made before it.
    pub(crate) fn leaf_bytes(&self, content: &Content<'_>) -> u128
        requires paired { IsPaired content.now }
        ensures { result ≡ limit.leaf_bytes self.now.limit.weights (tree_of_content content.now) }
    {
        let group = u128::from(self.limit.weights.group);
        match content {
            Content::String(text) => group + weights::TEXT_BYTE * text.len() as u128,
            Content::Binary(digits) => group + REQUEST + digits.len() as u128 / 2,
            Content::Integer(_) => group,
            Content::IntVector(_) => group + REQUEST,
        }
    }
}
