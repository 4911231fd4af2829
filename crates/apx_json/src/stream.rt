//! The shape of streams.

ghost use Rattle.std.specs.Prelude.{◌≡◌, option_map};
ghost use Rattle.serde_json.specs.View.{view, items_view};
ghost use Rattle.apx_json.specs.Shape.{Gives, port_at, sink_at, stream_at, each_at};

use crate::member::{list, object, text};
use crate::place::Place;
use crate::refusal::JsonRefusal;
use crate::text::{PortText, StreamText};
use serde_json::Value;
use std::alloc::Global;

/// The end of a stream at a place.
#[tactic(auto, unfolding(crate::specs::Shape::port_at))]
fn port(alloc: Global, place: Place, found: Option<&Value>) -> Result<PortText, JsonRefusal>
    ensures { Gives (λ p. p) result (port_at place (option_map (λ v. view v.now) found.entry)) }
{
    let members = object(alloc, place, found)?;
    let operator = text(alloc, place, members, "operatorName")?;
    let port = text(alloc, place, members, "portName")?;
    Ok(PortText { operator, port })
}

/// The sinks of stream `i`.
fn sinks(alloc: Global, i: usize, list: &Vec<Value>) -> Result<Vec<PortText>, JsonRefusal>
    ensures { Gives (λ found. found.items) result
        (each_at (sink_at i) 0 (items_view list.now.items)) }
{
    let mut sinks = Vec::new(alloc);
    for (j, value) in list.iter().enumerate() {
        sinks.push(port(alloc, Place::Sink(i, j), Some(value))?)?;
    }
    Ok(sinks)
}

/// Stream `i` of the file.
#[tactic(auto, unfolding(crate::specs::Shape::stream_at))]
fn stream(alloc: Global, i: usize, value: &Value) -> Result<StreamText, JsonRefusal>
    ensures { Gives (λ s. s) result (stream_at i (view value.now)) }
{
    let place = Place::Stream(i);
    let members = object(alloc, place, Some(value))?;
    let name = text(alloc, place, members, "name")?;
    let source = port(alloc, Place::Source(i), members.get("source"))?;
    let list = list(alloc, place, members, "sinks")?;
    let sinks = sinks(alloc, i, list)?;
    Ok(StreamText {
        name,
        source,
        sinks,
    })
}

/// The streams of a list.
pub(crate) fn streams(alloc: Global, list: &Vec<Value>) -> Result<Vec<StreamText>, JsonRefusal>
    ensures { Gives (λ found. found.items) result
        (each_at stream_at 0 (items_view list.now.items)) }
{
    let mut streams = Vec::new(alloc);
    for (i, value) in list.iter().enumerate() {
        streams.push(stream(alloc, i, value)?)?;
    }
    Ok(streams)
}
