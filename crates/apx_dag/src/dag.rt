//! Valid graphs.

ghost use Rattle.std.specs.Prelude.{◌≡◌, ◌<◌, ◌≤◌, ℕ, List, [], length, position, unwrap_or, ◌==◌, IfSome, IfOk, None};
ghost use Rattle.std.specs.Str.{bytes_eq};
ghost use Rattle.apx_pass.specs.Graph as graph;
ghost use Rattle.apx_pass.specs.Graph.{node_at};
ghost use Rattle.apx_pass.specs.Order.{order_of, IsOrder};
ghost use Rattle.apx_pass.specs.Pass.{inputs_before, sink_of};
ghost use Rattle.apx_pass.specs.Valid.{IsValid};
ghost use Rattle.apx_dag.specs.Dag.{nodes_in, key_texts, node_names};
ghost use Rattle.apx_dag.specs.Graph.{node_by, graph_of, sources_in, Answers};
ghost use Rattle.apx_dag.specs.Names.{named_again};
ghost use Rattle.apx_dag.specs.Order.{IsLinkOrder};
ghost use Rattle.apx_dag.specs.Ports.{link_of, links_of};
ghost use Rattle.apx_dag.specs.Rules.{operator_name};
ghost use Rattle.apx_dag.specs.Valid.{IsGraph};

use crate::known::{KnownApp, KnownOperator};
use crate::link::Link;
use crate::node::Node;
use crate::order::{first_loop, order};
use crate::port::links;
use crate::refusal::AppRefusal;
use crate::role::{Role, whole};
use crate::rules::{after_cycles, before_cycles};
use apx_json::AppText;
use indexmap::IndexMap;
use std::alloc::{AllocError, Global};
use std::marker::Model;

/// A valid graph: at most 16 operators with names of their own, in the order
/// of the file, and an order in which they can step.
///
/// ```
/// let dag = Dag::of(alloc, read_app(alloc, bytes)?)?;
/// for operator in dag.order() {
///     let node = dag.node(*operator);
/// }
/// ```
#[derive(Drop)]
pub struct Dag {
    /// The operators under their names, in the order of the file.
    nodes: IndexMap<Vec<u8>, Node>,
    /// The operators' numbers: at each place the earliest whose sources stand
    /// before it.
    order: Vec<u16>,
}

impl Model for Dag {
    ghost use Rattle.std.specs.Prelude.{List};
    ghost use Rattle.apx_pass.specs.Graph as graph;
    ghost use Rattle.apx_dag.specs.Dag.{nodes_in, IsDag};

    ghost Value = { List graph.Node };

    ghost view = { λ d. nodes_in d.nodes.entries };

    ghost invariant = { λ d. IsDag d.nodes.entries d.order.items };
}

fn node(i: usize, operator: &KnownOperator, link: Link) -> Result<Node, AllocError>
    requires here { i < 16 }
    requires left { IfSome link.left (λ a. a < 16) }
    requires right { IfSome link.right (λ a. a < 16) }
    ensures { IfOk result (λ node. node ≡ node_by i operator.now link) }
{
    let text = operator.written();
    Ok(Node {
        name: text.name.copy()?,
        role: operator.role()?.unwrap_or(Role::Sink),
        partitions: whole(text.partitions, 1, 8).unwrap_or(1) as u8,
        left: number(i, link.left),
        right: number(i, link.right),
        app_windows: whole(text.app_windows, 1, 20_000).unwrap_or(1),
    })
}

/// The number of a source, or the operator's own.
fn number(own: usize, source: Option<usize>) -> u16
    requires here { own < 16 }
    requires within { IfSome source (λ a. a < 16) }
    ensures { result ≡ unwrap_or source own }
{
    source.unwrap_or(own) as u16
}

/// The operators under their names, where the rules on names and on their
/// number hold.
fn nodes(
    alloc: Global,
    app: &KnownApp,
    links: &[Link],
) -> Result<IndexMap<Vec<u8>, Node>, AllocError>
    requires few { length app.now.operators ≤ 16 }
    requires names { named_again operator_name [] app.now.operators ≡ None }
    requires links { links.now ≡ links_of app.now }
    ensures nodes { IfOk result (λ nodes. nodes_in nodes.entries ≡ graph_of app.now) }
    ensures named { IfOk result (λ nodes. key_texts nodes.entries ≡ node_names nodes.entries) }
{
    let mut nodes = IndexMap::new(alloc);
    for (i, operator) in app.operators.iter().enumerate() {
        let node = node(i, operator, links[i])?;
        let name = Vec::from_slice(alloc, operator.written().name.text().as_bytes())?;
        nodes.insert(name, node)?;
    }
    Ok(nodes)
}

impl Dag {
    /// The graph of an application.
    ///
    /// `Refused` comes exactly where a rule is broken, with the first one in
    /// this order, and with the name of the first operator of the file that
    /// breaks it, and else of the first stream:
    ///
    /// 1. there are at most 16 operators (no name);
    /// 2. no operator has the name of an earlier one, and no stream that of an
    ///    earlier stream;
    /// 3. each class is known;
    /// 4. each property is one of its class and in its range, and those that
    ///    the class needs are there; each of several with one name is judged,
    ///    and the last one counts;
    /// 5. a stream's source is an output port and each sink an input port of an
    ///    operator that is there;
    /// 6. no port stands a second time in the streams;
    /// 7. each port stands in a stream;
    /// 8. no operator is reached from itself;
    /// 9. there is a `store` (no name);
    /// 10. there is no second `store`, which gives the name;
    /// 11. `PARTITIONS` is 1 to 8;
    /// 12. and 1 for an input and the sink;
    /// 13. a stream has 1 to 8 sinks;
    /// 14. a name has 1 to 255 bytes, none below 32 (no name);
    /// 15. `APPLICATION_WINDOW_COUNT` is 1 to 20,000;
    /// 16. and 1 for an input and the sink.
    ///
    /// `Memory` where memory ran out.
    pub fn of(alloc: Global, app: AppText) -> Result<Dag, AppRefusal>
        ensures { Answers app result }
    {
        Dag::of_known(alloc, KnownApp::of(alloc, app)?)
    }

    /// The graph of an application of which each class and role is looked up, or the first broken rule.
    fn of_known(alloc: Global, app: KnownApp) -> Result<Dag, AppRefusal>
        ensures { Answers app result }
    {
        before_cycles(alloc, &app)?;
        let links = links(alloc, &app)?;
        if let Some(i) = first_loop(alloc, &links)? {
            return Err(AppRefusal::Refused {
                code: 8,
                place: app.operators[i].written().name.copy()?,
            });
        }
        after_cycles(alloc, &app)?;
        let order = order(alloc, &links)?;
        let nodes = nodes(alloc, &app, &links)?;
        Ok(Dag { nodes, order })
    }

    /// How many operators there are, at most 16.
    pub fn len(&self) -> u16
        ensures len { result ≡ length self.now }
        ensures few { length self.now ≤ 16 }
        ensures valid { IsGraph self.now }
    {
        self.nodes.len() as u16
    }

    /// Whether there is no operator; an accepted application has some.
    pub fn is_empty(&self) -> bool
        ensures { result ≡ (length self.now == 0) }
    {
        self.nodes.is_empty()
    }

    /// The operator with a number.
    pub fn node(&self, op: u16) -> &Node
        requires { op < length self.now }
        ensures { result.now ≡ node_at self.now op }
    {
        self.nodes.get_index(usize::from(op)).unwrap().1
    }

    /// The number of the operator with a name.
    pub fn find(&self, name: &[u8]) -> Option<u16>
        ensures { result ≡ position (λ node. bytes_eq name.now node.name) self.now }
    {
        let number = self.nodes.get_index_of(name)?;
        Some(number as u16)
    }

    /// How many of the operators before one are inputs.
    pub fn inputs_before(&self, op: u16) -> usize
        requires { op ≤ length self.now }
        ensures { result ≡ inputs_before self.now op }
    {
        let mut count = 0;
        for other in 0..op {
            if self.node(other).is_input() {
                count += 1;
            }
        }
        count
    }

    /// The number of the sink.
    pub fn sink(&self) -> u16
        ensures number { result ≡ sink_of self.now }
        ensures valid { IsValid self.now }
    {
        for op in 0..self.len() {
            if self.node(op).is_sink() {
                return op;
            }
        }
        self.len()
    }

    /// The operators' numbers in an order in which they can step: each once,
    /// at each place the earliest of the file whose sources stand before it.
    pub fn order(&self) -> &[u16]
        ensures earliest { IsLinkOrder (sources_in self.now) result.now }
        ensures same { result.now ≡ order_of self.now }
        ensures goes { IsOrder self.now result.now }
    {
        &self.order
    }
}
