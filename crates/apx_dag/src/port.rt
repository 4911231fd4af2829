//! The ports of operators, and the streams that join them.

ghost use Rattle.std.specs.Prelude.{◌≡◌, [], find, map, not, option_map, option_and_then, codes, position, IfOk};
ghost use Rattle.std.specs.List.{list_any, list_all};
ghost use Rattle.apx_dag.specs.Ports.{is_port, same_port, has_output, left_port, right_port, is_named, is_source, is_text, is_sink, joins_ports, is_fed_by, sink_again, uses_again, used_again, is_fed, is_joined, source_of, link_of, links_of};

use crate::known::{KnownApp, KnownOperator};
use crate::link::Link;
use apx_json::{Name, PortText, StreamText};
use std::alloc::{AllocError, Global};

fn is_port(operator: &Name, port: &str, found: &PortText) -> bool
    ensures { result ≡ is_port operator.now port.now found.now }
{
    found.operator.text() == operator.text() && found.port.text() == port
}

fn same_port(port: &PortText, other: &PortText) -> bool
    ensures { result ≡ same_port port.now other.now }
{
    is_port(&port.operator, port.port.text(), other)
}

fn has_output(operator: &KnownOperator) -> bool
    ensures { result ≡ has_output operator.now }
{
    match operator.class() {
        Some(class) => class.has_output(),
        None => false,
    }
}

fn left_port(operator: &KnownOperator) -> Option<&'static str>
    ensures { option_map (λ port. port.now) result ≡ left_port operator.now }
{
    match operator.class() {
        Some(class) => class.left_port(),
        None => None,
    }
}

fn right_port(operator: &KnownOperator) -> Option<&'static str>
    ensures { option_map (λ port. port.now) result ≡ right_port operator.now }
{
    match operator.class() {
        Some(class) => class.right_port(),
        None => None,
    }
}

fn named<'a>(operators: &'a [KnownOperator], name: &Name) -> Option<&'a KnownOperator>
    ensures { option_map (λ o. o.now) result ≡ find (is_named name.now) operators.now }
{
    operators
        .iter()
        .find(|operator| operator.written().name.text() == name.text())
}

/// Whether it is an output port of an operator that is there.
fn is_source(operators: &[KnownOperator], port: &PortText) -> bool
    ensures { result ≡ is_source operators.now port.now }
{
    match named(operators, &port.operator) {
        Some(operator) => has_output(operator) && port.port.text() == "output",
        None => false,
    }
}

fn is_text(text: &Name, found: Option<&str>) -> bool
    ensures { result ≡ is_text text.now (option_map (λ t. t.now) found.entry) }
{
    match found {
        Some(found) => text.text() == found,
        None => false,
    }
}

/// Whether it is an input port of an operator that is there.
fn is_sink(operators: &[KnownOperator], port: &PortText) -> bool
    ensures { result ≡ is_sink operators.now port.now }
{
    match named(operators, &port.operator) {
        Some(operator) => {
            is_text(&port.port, left_port(operator)) || is_text(&port.port, right_port(operator))
        }
        None => false,
    }
}

fn are_sinks(operators: &[KnownOperator], ports: &[PortText]) -> bool
    ensures { result ≡ list_all (is_sink operators.now) ports.now }
{
    ports.iter().all(|port| is_sink(operators, port))
}

fn joins_ports(operators: &[KnownOperator], stream: &StreamText) -> bool
    ensures { result ≡ joins_ports operators.now stream.now }
{
    is_source(operators, &stream.source) && are_sinks(operators, &stream.sinks)
}

/// The first stream with an end that is no port of an operator.
pub(crate) fn no_port<'a>(app: &'a KnownApp) -> Option<&'a StreamText>
    ensures { option_map (λ s. s.now) result
        ≡ find (λ s. not (joins_ports app.now.operators s)) app.now.streams }
{
    app.streams
        .iter()
        .find(|stream| !joins_ports(&app.operators, stream))
}

fn has_sink(stream: &StreamText, port: &PortText) -> bool
    ensures { result ≡ is_fed_by port.now stream.now }
{
    stream.sinks.iter().any(|sink| same_port(port, sink))
}

fn is_sink_of_any(streams: &[StreamText], port: &PortText) -> bool
    ensures { result ≡ list_any (is_fed_by port.now) streams.now }
{
    streams.iter().any(|stream| has_sink(stream, port))
}

fn stands_in(ports: &[PortText], port: &PortText) -> bool
    ensures { result ≡ list_any (same_port port.now) ports.now }
{
    ports.iter().any(|other| same_port(port, other))
}

fn is_source_of_any(streams: &[StreamText], port: &PortText) -> bool
    ensures { result ≡ list_any (λ e. same_port port.now e.source) streams.now }
{
    streams.iter().any(|stream| same_port(port, &stream.source))
}

/// Whether one of the sinks stands in an earlier stream, or earlier among them.
fn sink_again(earlier: &[StreamText], sinks: &[PortText]) -> bool
    ensures { result ≡ sink_again earlier.now [] sinks.now }
{
    for (j, sink) in sinks.iter().enumerate() {
        if is_sink_of_any(earlier, sink) || stands_in(&sinks[..j], sink) {
            return true;
        }
    }
    false
}

fn uses_again(earlier: &[StreamText], stream: &StreamText) -> bool
    ensures { result ≡ uses_again earlier.now stream.now }
{
    is_source_of_any(earlier, &stream.source) || sink_again(earlier, &stream.sinks)
}

/// The first stream that uses an output port a second time as a source, or an
/// input port a second time as a sink.
pub(crate) fn port_again(streams: &[StreamText]) -> Option<&Name>
    ensures { option_map (λ name. name.now) result ≡ used_again [] streams.now }
{
    for (i, stream) in streams.iter().enumerate() {
        if uses_again(&streams[..i], stream) {
            return Some(&stream.name);
        }
    }
    None
}

fn feeds(stream: &StreamText, operator: &Name, port: &str) -> bool
    ensures { result ≡ list_any (is_port operator.now port.now) stream.now.sinks }
{
    stream
        .sinks
        .iter()
        .any(|sink| is_port(operator, port, sink))
}

fn is_fed_at(streams: &[StreamText], operator: &Name, port: &str) -> bool
    ensures { result ≡ list_any (λ s. list_any (is_port operator.now port.now) s.sinks) streams.now }
{
    streams.iter().any(|stream| feeds(stream, operator, port))
}

fn is_fed(streams: &[StreamText], operator: &Name, port: Option<&str>) -> bool
    ensures { result ≡ is_fed streams.now operator.now (option_map (λ port. port.now) port.entry) }
{
    match port {
        Some(port) => is_fed_at(streams, operator, port),
        None => true,
    }
}

fn is_read(streams: &[StreamText], operator: &Name) -> bool
    ensures { result ≡ list_any (λ s. is_port operator.now (codes "output") s.source) streams.now }
{
    streams
        .iter()
        .any(|stream| is_port(operator, "output", &stream.source))
}

/// Whether each of its ports is in a stream.
fn is_joined(streams: &[StreamText], operator: &KnownOperator) -> bool
    ensures { result ≡ is_joined streams.now operator.now }
{
    (!has_output(operator) || is_read(streams, &operator.written().name))
        && is_fed(streams, &operator.written().name, left_port(operator))
        && is_fed(streams, &operator.written().name, right_port(operator))
}

/// The first operator with a port that is in no stream.
pub(crate) fn unused_port(app: &KnownApp) -> Option<&KnownOperator>
    ensures { option_map (λ o. o.now) result
        ≡ find (λ o. not (is_joined app.now.streams o)) app.now.operators }
{
    app.operators
        .iter()
        .find(|operator| !is_joined(&app.streams, operator))
}

fn number(operators: &[KnownOperator], name: &Name) -> Option<usize>
    ensures { result ≡ position (is_named name.now) operators.now }
{
    operators
        .iter()
        .position(|operator| operator.written().name.text() == name.text())
}

fn stream_to<'a>(streams: &'a [StreamText], operator: &Name, port: &str) -> Option<&'a StreamText>
    ensures { option_map (λ s. s.now) result
        ≡ find (λ s. list_any (is_port operator.now port.now) s.sinks) streams.now }
{
    streams.iter().find(|stream| feeds(stream, operator, port))
}

/// The number of the operator that feeds a port.
fn source(app: &KnownApp, operator: &Name, port: &str) -> Option<usize>
    ensures { result ≡ source_of app.now operator.now port.now }
{
    match stream_to(&app.streams, operator, port) {
        Some(stream) => number(&app.operators, &stream.source.operator),
        None => None,
    }
}

fn source_at(app: &KnownApp, operator: &Name, port: Option<&str>) -> Option<usize>
    ensures { result ≡ option_and_then (source_of app.now operator.now) (option_map (λ port. port.now) port.entry) }
{
    match port {
        Some(port) => source(app, operator, port),
        None => None,
    }
}

fn link(app: &KnownApp, operator: &KnownOperator) -> Link
    ensures { result ≡ link_of app.now operator.now }
{
    Link {
        left: source_at(app, &operator.written().name, left_port(operator)),
        right: source_at(app, &operator.written().name, right_port(operator)),
    }
}

/// The sources of each operator.
pub(crate) fn links(alloc: Global, app: &KnownApp) -> Result<Vec<Link>, AllocError>
    ensures { IfOk result (λ links. links.items ≡ links_of app.now) }
{
    app.operators
        .iter()
        .map(|operator| link(app, operator))
        .collect(alloc)
}
