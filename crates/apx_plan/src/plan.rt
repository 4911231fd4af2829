//! The text of a plan.

ghost use Rattle.std.specs.Prelude.{◌≡◌, ◌≤◌, ◌++◌, OnOk, OnErr};
ghost use Rattle.apx_plan.specs.Class.{class_name};
ghost use Rattle.apx_plan.specs.Plan.{numbered, spaced, key_text, mask_text, classes_text, partition_text, partitions_text, head_text, plan_text};
ghost use Rattle.apx_report.specs.Extends.{Extends};

use crate::class::class_name;
use apx_codec::mask;
use apx_dag::{Dag, Node};
use itoa::Buffer;
use std::alloc::AllocError;

/// Appends the plan of an application: for each operator, in the order of `Dag::order`, a line with its
/// number in the file, its class, how many partitions it has, and its name; and below it a line for each
/// partition with its number, the mask of the operator, and the classes of keys that belong to it.
///
/// Want of memory alone refuses it, and then the text is as it was.
pub fn plan_text(dag: &Dag, into: &mut Vec<u8>) -> Result<(), AllocError>
    ensures ok { OnOk result (into.new.items ≡ into.old.items ++ plan_text dag.now) }
    ensures err { OnErr result (into.new.items ≡ into.old.items) }
{
    let len = into.len();
    let appended = append_operators(dag, into);
    if appended.is_err() {
        into.truncate(len);
    }
    appended
}

/// Appends the operators and their partitions, in the graph's order.
#[tactic(auto, unfolding(crate::specs::Plan::plan_text))]
fn append_operators(dag: &Dag, into: &mut Vec<u8>) -> Result<(), AllocError>
    ensures ok { OnOk result (into.new.items ≡ into.old.items ++ plan_text dag.now) }
    ensures kept { Extends into.old.items into.new.items }
{
    let order = dag.order();
    for place in 0..usize::from(dag.len()) {
        let number = order[place];
        append_operator(number, dag.node(number), into)?;
    }
    Ok(())
}

/// Appends an operator and its partitions.
fn append_operator(number: u16, node: &Node, into: &mut Vec<u8>) -> Result<(), AllocError>
    requires low { 1 ≤ node.now.partitions }
    requires high { node.now.partitions ≤ 8 }
    ensures ok { OnOk result (into.new.items ≡ into.old.items
        ++ (head_text number (class_name node.now.role) node.now.partitions node.now.name
        ++ partitions_text node.now.partitions node.now.partitions)) }
    ensures kept { Extends into.old.items into.new.items }
{
    append_head(
        number,
        class_name(&node.role),
        node.partitions,
        node.name.text(),
        into,
    )?;
    append_partitions(node.partitions, into)
}

/// Appends the line of an operator.
fn append_head(
    number: u16,
    class: &str,
    partitions: u8,
    name: &str,
    into: &mut Vec<u8>,
) -> Result<(), AllocError>
    ensures ok { OnOk result (into.new.items
        ≡ into.old.items ++ head_text number class.now partitions name.now) }
    ensures kept { Extends into.old.items into.new.items }
{
    append_number(b"operator ", u32::from(number), into)?;
    append_word(class, into)?;
    append_number(b" ", u32::from(partitions), into)?;
    append_word(name, into)?;
    append_text(b"\n", into)
}

/// Appends a line for each of `n` partitions.
fn append_partitions(n: u8, into: &mut Vec<u8>) -> Result<(), AllocError>
    requires low { 1 ≤ n }
    requires high { n ≤ 8 }
    ensures ok { OnOk result (into.new.items ≡ into.old.items ++ partitions_text n n) }
    ensures kept { Extends into.old.items into.new.items }
{
    for partition in 0..n {
        append_partition(n, partition, into)?;
    }
    Ok(())
}

/// Appends the line of a partition of `n`.
fn append_partition(n: u8, partition: u8, into: &mut Vec<u8>) -> Result<(), AllocError>
    requires low { 1 ≤ n }
    requires high { n ≤ 8 }
    ensures ok { OnOk result (into.new.items ≡ into.old.items ++ partition_text n partition) }
    ensures kept { Extends into.old.items into.new.items }
{
    append_number(b"  partition ", u32::from(partition), into)?;
    append_mask(n, into)?;
    append_text(b" keys", into)?;
    append_keys(n, partition, into)?;
    append_text(b"\n", into)
}

/// Appends the mask of `n` partitions.
#[tactic(auto, unfolding(crate::specs::Plan::mask_text))]
fn append_mask(n: u8, into: &mut Vec<u8>) -> Result<(), AllocError>
    requires low { 1 ≤ n }
    requires high { n ≤ 8 }
    ensures ok { OnOk result (into.new.items ≡ into.old.items ++ mask_text n) }
    ensures kept { Extends into.old.items into.new.items }
{
    append_number(b" mask ", mask(n), into)
}

/// Appends the classes of keys that belong to a partition of `n`, each behind a space.
#[tactic(auto, unfolding(crate::specs::Plan::classes_text))]
fn append_keys(n: u8, partition: u8, into: &mut Vec<u8>) -> Result<(), AllocError>
    requires low { 1 ≤ n }
    requires high { n ≤ 8 }
    ensures ok { OnOk result (into.new.items ≡ into.old.items ++ classes_text n partition) }
    ensures kept { Extends into.old.items into.new.items }
{
    for class in 0..mask(n) + 1 {
        append_key(n, partition, class, into)?;
    }
    Ok(())
}

/// Appends a class of keys behind a space, where it belongs to the partition.
fn append_key(n: u8, partition: u8, class: u32, into: &mut Vec<u8>) -> Result<(), AllocError>
    requires { 1 ≤ n }
    ensures ok { OnOk result (into.new.items ≡ into.old.items ++ key_text n partition class) }
    ensures kept { Extends into.old.items into.new.items }
{
    if class % u32::from(n) != u32::from(partition) {
        return Ok(());
    }
    append_number(b" ", class, into)
}

/// Appends a word behind a space.
#[tactic(auto, unfolding(crate::specs::Plan::spaced))]
fn append_word(word: &str, into: &mut Vec<u8>) -> Result<(), AllocError>
    ensures ok { OnOk result (into.new.items ≡ into.old.items ++ spaced word.now) }
    ensures kept { Extends into.old.items into.new.items }
{
    into.extend_from_slice(b" ")?;
    into.extend_from_slice(word.as_bytes())
}

/// Appends a label and a number.
#[tactic(auto, unfolding(crate::specs::Plan::numbered))]
fn append_number(label: &[u8], number: u32, into: &mut Vec<u8>) -> Result<(), AllocError>
    ensures ok { OnOk result (into.new.items ≡ into.old.items ++ numbered label.now number) }
    ensures kept { Extends into.old.items into.new.items }
{
    into.extend_from_slice(label)?;
    into.extend_from_slice(Buffer::new().format(number).as_bytes())
}

/// Appends a text.
fn append_text(text: &[u8], into: &mut Vec<u8>) -> Result<(), AllocError>
    ensures ok { OnOk result (into.new.items ≡ into.old.items ++ text.now) }
    ensures kept { Extends into.old.items into.new.items }
{
    into.extend_from_slice(text)
}
