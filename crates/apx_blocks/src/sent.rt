//! The blocks that the partitions of an operator give in a window.
ghost use Rattle.std.specs.Prelude.{◌≡◌, ◌<◌, true, cond, [], map, length, get_or, IfOk};
ghost use Rattle.apx_blocks.specs.Came.{reads_left, reads_right};

use apx_dag::{Node, Role};
use apx_list::Block;
use std::alloc::{AllocError, Global};
use std::marker::Model;

/// The blocks of each partition of an operator in a window.
#[derive(Drop)]
pub(crate) struct Sent {
    /// Those of each partition, in order.
    pub(crate) lists: Vec<Vec<Block>>,
}

impl Model for Sent {
    ghost use Rattle.std.specs.Prelude.{List, map};
    ghost use Rattle.apx_list.specs.declared.block.Block.{Block};

    ghost Value = { List (List Block) };

    ghost view = { λ s. map (λ list. list.items) s.lists.items };
}

/// For each of `count` operators no blocks yet.
pub(crate) fn nothing_sent(alloc: Global, count: u16) -> Result<Vec<Sent>, AllocError>
    ensures { IfOk result (λ sent. length sent.items ≡ count) }
{
    let mut sent = Vec::new(alloc);
    for _op in 0..count {
        sent.push(Sent {
            lists: Vec::new(alloc),
        })?;
    }
    Ok(sent)
}

/// Whether the operator has a left port.
fn reads_left(node: &Node) -> bool
    ensures { result ≡ reads_left node.now.role }
{
    match &node.role {
        Role::Input { .. } => false,
        Role::Inner(_) | Role::Sink => true,
    }
}

/// Whether it has a right port.
fn reads_right(node: &Node) -> bool
    ensures { result ≡ reads_right node.now.role }
{
    match &node.role {
        Role::Inner(kind) => kind.has_right(),
        Role::Input { .. } | Role::Sink => false,
    }
}

/// What comes on the left port: the blocks of the operator that it reads, and none where there is no such port.
pub(crate) fn left_blocks<'a>(
    node: &Node,
    sent: &'a [Sent],
    none: &'a [Vec<Block>],
) -> &'a [Vec<Block>]
    requires there { reads_left node.now.role ≡ true → node.now.left < length sent.now }
    requires none { none.now ≡ [] }
    ensures { map (λ list. list.items) result.now ≡ cond (reads_left node.now.role) (get_or sent.now node.now.left []) [] }
{
    if reads_left(node) {
        let source = &sent[usize::from(node.left)];
        return &source.lists;
    }
    none
}

/// What comes on the right port: the blocks of the operator that it reads, and none where there is no such port.
pub(crate) fn right_blocks<'a>(
    node: &Node,
    sent: &'a [Sent],
    none: &'a [Vec<Block>],
) -> &'a [Vec<Block>]
    requires there { reads_right node.now.role ≡ true → node.now.right < length sent.now }
    requires none { none.now ≡ [] }
    ensures { map (λ list. list.items) result.now ≡ cond (reads_right node.now.role) (get_or sent.now node.now.right []) [] }
{
    if reads_right(node) {
        let source = &sent[usize::from(node.right)];
        return &source.lists;
    }
    none
}
