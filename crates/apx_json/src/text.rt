//! An application as its text has it, with nothing of the graph tested.

use crate::name::Name;
use apx_decimal::integer;
use std::marker::Model;

/// The value of an operator's property.
#[derive(Debug, Drop)]
pub enum PropertyValue {
    /// A JSON number that is an integer in the range of `i64`.
    Number(i64),
    /// A JSON text.
    Text(Name),
    /// Any other value.
    Other,
}

impl PropertyValue {
    ghost use Rattle.std.specs.Prelude.{◌≡◌};
    ghost use Rattle.apx_json.specs.Integers.{integer_in};

    /// The integer that it is: a number, or a text of an optional `-` and
    /// digits in the range of `i64`.
    pub fn integer(&self) -> Option<i64>
        ensures { result ≡ integer_in self.now }
    {
        match self {
            PropertyValue::Number(number) => Some(*number),
            PropertyValue::Text(text) => integer(text.text().as_bytes()),
            PropertyValue::Other => None,
        }
    }
}

/// A property of an operator, by its name.
#[derive(Debug, Drop)]
pub struct Property {
    /// Its name.
    pub name: Name,
    /// Its value.
    pub value: PropertyValue,
}

/// One end of a stream: a port of an operator, both by name.
#[derive(Debug, Drop)]
pub struct PortText {
    /// The name of the operator.
    pub operator: Name,
    /// The name of its port.
    pub port: Name,
}

/// An operator.
#[derive(Debug, Drop)]
pub struct OperatorText {
    /// Its name.
    pub name: Name,
    /// The class that it is of.
    pub class: Name,
    /// Each name once, in ascending order of their bytes.
    pub properties: Vec<Property>,
    /// The attribute `PARTITIONS`, 1 where it is absent.
    pub partitions: i64,
    /// The attribute `APPLICATION_WINDOW_COUNT` (in windows), 1 where it is
    /// absent, as in Apache Apex.
    pub app_windows: i64,
}

impl Model for OperatorText {
    ghost use Rattle.apx_json.specs.Texts.{Operator};

    ghost Value = { Operator };

    ghost view = { λ o. record {
      name = o.name;
      class = o.class;
      properties = o.properties.items;
      partitions = o.partitions;
      app_windows = o.app_windows;
    } };
}

/// A stream from one output port to any number of input ports.
#[derive(Debug, Drop)]
pub struct StreamText {
    /// Its name.
    pub name: Name,
    /// The output port that it comes from.
    pub source: PortText,
    /// The input ports that it goes to.
    pub sinks: Vec<PortText>,
}

impl Model for StreamText {
    ghost use Rattle.apx_json.specs.Texts.{Stream};

    ghost Value = { Stream };

    ghost view = { λ s. record { name = s.name; source = s.source; sinks = s.sinks.items } };
}

/// An application: its operators and streams, in the order of the file.
#[derive(Debug, Drop)]
pub struct AppText {
    /// The operators.
    pub operators: Vec<OperatorText>,
    /// The streams.
    pub streams: Vec<StreamText>,
}

impl Model for AppText {
    ghost use Rattle.apx_json.specs.Texts.{Application};

    ghost Value = { Application };

    ghost view = { λ a. record { operators = a.operators.items; streams = a.streams.items } };
}
