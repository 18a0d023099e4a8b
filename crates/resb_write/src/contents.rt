//! What the resources of a tree hold, gathered in one pass: the texts of strings, and what is
//! tested before anything is laid. Where things come to stand is not said here.
ghost use Rattle.std.specs.Prelude.{◌≡◌, ◌++◌, ◌∷◌, ◌+◌, ◌-◌, ◌*◌, ◌/◌, ◌^◌, ◌||◌, ◌≤◌, [], List};
ghost use Rattle.std.specs.Prelude.{length};
ghost use Rattle.std.specs.Prelude.{min, max, nat_lt, IfOk, OnOk};
ghost use Rattle.std.specs.Option.{option_or};
ghost use Rattle.resb_tree.specs.Tree.{Tree};
ghost use Rattle.resb_format.specs.Units.{units};
ghost use Rattle.resb_pool.specs.Plan.{nows, first_too_long};
ghost use Rattle.resb_write.specs.Inner.Gathered.{Gathered};
ghost use Rattle.resb_write.specs.Inner.Nodes.{IsNode};

use crate::nodes::{Node, Nodes};
use resb_format::utf16_len;
use resb_pool::excessive_len;
use std::alloc::{AllocError, Global};

/// The greatest number of 32 bits: the most members of an array, binary or vector, and the most
/// units of a path.
const GREATEST: usize = 0xffff_ffff;

/// What resources hold.
#[derive(Drop)]
pub(crate) struct Contents<'t> {
    /// The texts of strings, as often as each stands there.
    pub(crate) texts: Vec<&'t str>,
    /// Their part of the plain size without the units of strings, or the greatest number, if that
    /// is less.
    pub(crate) size: usize,
    /// The bytes of the texts, of which no more are units, or the greatest number.
    pub(crate) text_bytes: usize,
    /// The number of entries of the largest table.
    pub(crate) largest_table: usize,
    /// The number of units of the first string of more than 4294967295.
    pub(crate) too_long: Option<usize>,
    /// Whether the count of some array, binary or vector, or path, doesn't fit 32 bits.
    pub(crate) has_count_over_32_bits: bool,
}

impl<'t> Contents<'t> {
    /// What resources hold, in their order.
    pub(crate) fn gather<N: Nodes>(alloc: Global, order: &'t N) -> Result<Contents<'t>, AllocError>
        requires { (ts : List Tree) × N.fit order.now ts }
        ensures { IfOk result (λ c. (ts : List Tree) → N.fit order.now ts → Gathered ts c) }
    {
        let mut contents = Contents {
            texts: Vec::with_capacity(alloc, order.count())?,
            size: 0,
            text_bytes: 0,
            largest_table: 0,
            too_long: None,
            has_count_over_32_bits: false,
        };
        for at in 0..order.count() {
            contents.add(order.node(at))?;
        }
        Ok(contents)
    }

    /// The texts of the strings. The rest goes.
    pub(crate) fn into_texts(self) -> Vec<&'t str>
        ensures { result ≡ self.entry.texts }
    {
        self.texts
    }

    /// Adds what a resource holds.
    #[inline(always)]
    fn add(&mut self, node: Node<'t>) -> Result<(), AllocError>
        ensures { OnOk result ((ts : List Tree) (t : Tree) → Gathered ts self.old
            → IsNode node.entry t → Gathered (ts ++ t ∷ []) self.new) }
    {
        match node {
            Node::String(text) => self.add_text(text)?,
            Node::Alias(path) => self.add_counted(utf16_len(path), 1),
            Node::Array(count) => self.add_counted(count, 4),
            Node::Table(count) => self.add_table(count),
            Node::Binary(bytes) => self.add_bytes(bytes.len()),
            Node::Integer(_) => self.add_size(0),
            Node::IntVector(numbers) => self.add_counted(numbers.len(), 2),
        }
        Ok(())
    }

    /// Adds 16 and a resource's own size to the plain size.
    fn add_size(&mut self, size: usize)
        ensures { self.new ≡ record self.old {
          size = min (self.old.size + (16 + size)) (2 ^ 64 - 1);
        } }
    {
        self.size = self.size.saturating_add(size.saturating_add(16));
    }

    /// Adds a collection, path or vector of so many members, units or numbers, each of some size.
    fn add_counted(&mut self, count: usize, each: usize)
        ensures { self.new ≡ record self.old {
          size = min (self.old.size + (16 + count * each)) (2 ^ 64 - 1);
          has_count_over_32_bits = self.old.has_count_over_32_bits || nat_lt 4294967295 count;
        } }
    {
        self.has_count_over_32_bits = self.has_count_over_32_bits || count > GREATEST;
        self.add_size(count.saturating_mul(each));
    }

    /// Adds so many bytes.
    fn add_bytes(&mut self, count: usize)
        ensures { self.new ≡ record self.old {
          size = min (self.old.size + (16 + (count + 1) / 2)) (2 ^ 64 - 1);
          has_count_over_32_bits = self.old.has_count_over_32_bits || nat_lt 4294967295 count;
        } }
    {
        self.has_count_over_32_bits = self.has_count_over_32_bits || count > GREATEST;
        self.add_size(count.div_ceil(2));
    }

    /// Adds a string. Its units are counted only where they may be too many.
    fn add_text(&mut self, text: &'t str) -> Result<(), AllocError>
        ensures { OnOk result ((nows self.new.texts.items
            ≡ nows self.old.texts.items ++ text.now ∷ [])
            × (length (units text.now) ≤ length text.now)
            × (self.new ≡ record self.old {
              texts = self.new.texts;
              size = min (self.old.size + 16) (2 ^ 64 - 1);
              text_bytes = min (self.old.text_bytes + length text.now) (2 ^ 64 - 1);
              too_long = option_or self.old.too_long (first_too_long (text.now ∷ []));
            })) }
    {
        self.too_long = self.too_long.or(excessive_len(text));
        self.add_size(0);
        self.text_bytes = self.text_bytes.saturating_add(text.len());
        self.texts.push(text)?;
        Ok(())
    }

    /// Adds a table of so many entries.
    fn add_table(&mut self, count: usize)
        ensures { self.new ≡ record self.old {
          size = min (self.old.size + (16 + 4 * count)) (2 ^ 64 - 1);
          largest_table = max self.old.largest_table count;
        } }
    {
        self.largest_table = self.largest_table.max(count);
        self.add_size(count.saturating_mul(4));
    }
}
