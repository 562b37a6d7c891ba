//! A sink that colours what it sends to another.

ghost use Rattle.std.specs.Prelude.{◌≡◌};
ghost use Rattle.std.specs.Bool.{OnFalse, OnTrue};
ghost use Rattle.byte_streams.specs.Streams.{Sends, Takes};
ghost use Rattle.terminal_colors.specs.Lines.{colored};
ghost use Rattle.terminal_colors.specs.Sinks.{color_sink_state, colors_of, inner_of};

use crate::lines::send_colored;
use byte_streams::{Failed, Sink};

/// A sink that sends what it is given to another sink, with or without colours.
///
/// Only whole lines of one write have colours. If it colours, its bytes are not known to contracts: after an `Err` the other sink may
/// have a part of them.
#[derive(Drop)]
pub struct ColorSink<S> {
    inner: S,
    colors: bool,
}

impl<S: Sink> ColorSink<S> {
    /// A sink that sends to this one, and colours what it sends, or not.
    pub fn new(inner: S, colors: bool) -> Self
        ensures inner { inner_of result ≡ inner }
        ensures colors { colors_of result ≡ colors }
    {
        ColorSink { inner, colors }
    }

    /// The other sink.
    pub fn into_inner(self) -> S
        ensures { result ≡ inner_of self }
    {
        let ColorSink { inner, .. } = self;
        inner
    }
}

impl<S: Sink> Sink for ColorSink<S> {
    ghost state = { λ sink. color_sink_state S.state sink };

    /// Sends the bytes, all of them with colours; or writes once, without.
    fn write(&mut self, bytes: &[u8]) -> Result<usize, Failed>
        ensures takes { Takes (color_sink_state S.state self.old) (color_sink_state S.state self.new) result bytes.now }
        ensures colors { colors_of self.new ≡ colors_of self.old }
        ensures colored { OnTrue (colors_of self.old) (Sends (S.state (inner_of self.old)) (S.state (inner_of self.new)) result (colored bytes.now)) }
        ensures plain { OnFalse (colors_of self.old) (Takes (S.state (inner_of self.old)) (S.state (inner_of self.new)) result bytes.now) }
    {
        if !self.colors {
            return self.inner.write(bytes);
        }
        send_colored(bytes, &mut self.inner)?;
        Ok(bytes.len())
    }
}
