//! Paths into a tree. Each is kept once, as the one that it goes on from and its last step, so
//! that a path takes no room for those before it.
ghost use Rattle.std.specs.Prelude.{◌≡◌, ◌<◌, ◌++◌, List, [], ◌∷◌, length, map, OnOk, IfOk};
ghost use Rattle.std.specs.Prelude.{slice_index_or, MatchOption};
ghost use Rattle.resb_diff.specs.Differences.{Step};
ghost use Rattle.resb_diff.specs.Paths.{step_of, paths_of, GoOn};

use resb_tree::NoMemory;
use std::alloc::{AllocError, Global};
use std::marker::Model;

/// A step of a path.
#[derive(Clone, Copy)]
pub enum PathStep<'t> {
    /// Into a table, to the value of this key.
    Key(&'t str),
    /// Into an array, to the member of this number. The first is 0.
    Number(usize),
}

/// A path that goes on from another by one step.
#[derive(Clone, Copy)]
struct Node<'t> {
    from: usize,
    step: PathStep<'t>,
}

/// Paths by number. That of number 0 has no step.
#[derive(Drop)]
pub(crate) struct Paths<'t> {
    nodes: Vec<Node<'t>>,
}

impl<'t> Model for Paths<'t> {
    ghost Value = { List (List Step) };

    ghost view = { λ p. paths_of p.nodes.items };

    ghost invariant = { λ p. GoOn 1 p.nodes.items };
}

impl<'t> Paths<'t> {
    /// The path without a step alone.
    pub(crate) fn new(alloc: Global) -> Paths<'t>
        ensures { result ≡ [] ∷ [] }
    {
        Paths {
            nodes: Vec::new(alloc),
        }
    }

    /// Puts the path of a number with one step more behind the others, and gives its number.
    pub(crate) fn go_on(&mut self, from: usize, step: PathStep<'t>) -> Result<usize, AllocError>
        requires { from < length self.old }
        ensures number { IfOk result (λ n. n ≡ length self.old) }
        ensures paths { OnOk result (self.new
            ≡ self.old ++ (slice_index_or self.old from [] ++ step_of step.entry ∷ []) ∷ []) }
    {
        self.nodes.push(Node { from, step })?;
        Ok(self.nodes.len())
    }

    /// The last step of the path of a number, and the number of the path before it.
    fn last(&self, number: usize) -> Option<Node<'t>>
        ensures { MatchOption result (slice_index_or self.now number [] ≡ [])
            (λ n. (n.from < number) × (slice_index_or self.now number []
            ≡ slice_index_or self.now n.from [] ++ step_of n.step ∷ [])) }
    {
        let nodes = &self.nodes;
        if number == 0 {
            return None;
        }
        let node = nodes.get(number - 1)?;
        Some(*node)
    }

    /// The steps of the path of a number, none at a number that no path has.
    pub(crate) fn steps(&self, alloc: Global, number: usize) -> Result<Vec<PathStep<'t>>, NoMemory>
        ensures { IfOk result (λ v. map step_of v.items ≡ slice_index_or self.now number []) }
    {
        let mut steps = Vec::new(alloc);
        let mut number = number;
        while let Some(node) = self.last(number) {
            steps.push(node.step)?;
            number = node.from;
        }
        steps.reverse();
        Ok(steps)
    }
}
