ghost use Rattle.replay_form.specs.RecordGrammar.{record_grammar, record_reads};
ghost use Rattle.replay_form.proofs.IntakeLaws.{record_lawful, are_reads};

use crate::intake::Intake;
use replay_form::{Event, RecordFault, RecordHead, RecordReader, Stamp};
use std::marker::Model;

/// A frame of a record: when the datagram came, on which port, and its bytes.
///
/// The reader lends what it has of a frame, so this type serves contracts, which speak of its
/// value.
#[derive(Drop)]
pub struct ReceivedFrame {
    /// When the datagram came.
    pub stamp: Stamp,
    /// The port on which it came.
    pub port: u16,
    /// The bytes of the datagram.
    pub datagram: Vec<u8>,
}

impl Model for ReceivedFrame {
    ghost use Rattle.replay_form.specs.FrameFields.{Frame};

    ghost Value = { Frame };

    ghost view = { λ it. record {
      stamp = it.stamp;
      port = it.port;
      datagram = it.datagram.items;
    } };
}

impl Intake for RecordReader {
    type Head = RecordHead;

    type Frame = ReceivedFrame;

    ghost grammar = { record_grammar };

    ghost reads = { λ reader. record_reads reader };

    fn has_head(&self) -> bool {
        self.head().is_some()
    }

    fn feed(&mut self, piece: &[u8]) -> Result<(usize, Event), RecordFault> {
        RecordReader::feed(self, piece)
    }

    fn finish(&self) -> Result<(), RecordFault> {
        RecordReader::finish(self)
    }

    ghost lawful = { record_lawful };

    ghost so_far = { λ reader. are_reads reader };
}
