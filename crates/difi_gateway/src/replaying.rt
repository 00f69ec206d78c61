use crate::gateway::Gateway;
use record_run::Teller;
use replay_form::RecordReader;
use std::alloc::Global;
use std::marker::Model;
use text_buffer::TextBuffer;
use vrt_words::NoMemory;

/// What `replay` tells of a record's frames: the records of their releases.
#[derive(Drop)]
pub(crate) struct Replay {
    // It opens at the header.
    gateway: Option<Gateway>,
}

impl Model for Replay {
    ghost use Rattle.std.specs.Prelude.{Option};
    ghost use Rattle.difi_gateway.specs.State.{Gated};

    ghost Value = { Option Gated };

    ghost view = { λ it. it.gateway };
}

impl Replay {
    ghost use Rattle.std.specs.Prelude.{◌≡◌, None};

    /// No header so far.
    pub fn new() -> Self
        ensures { result ≡ None }
    {
        Replay { gateway: None }
    }
}

impl Teller<RecordReader> for Replay {
    ghost use Rattle.difi_gateway.specs.Replaying.{told_by_gateway};

    ghost tells = { told_by_gateway };

    fn wants_memory(&self) -> bool {
        true
    }

    fn begin(&mut self, alloc: Global, intake: &RecordReader) -> Result<(), NoMemory> {
        if self.gateway.is_some() {
            return Ok(());
        }
        let Some(head) = intake.head() else {
            unreachable!()
        };
        let gateway = match Gateway::open(alloc, head) {
            Ok(gateway) => gateway,
            Err(NoMemory) => return Err(NoMemory),
        };
        self.gateway = Some(gateway);
        Ok(())
    }

    fn frame(&mut self, intake: &RecordReader, bytes: &[u8], _out: &mut TextBuffer) {
        let Some(received) = intake.frame(bytes) else {
            unreachable!()
        };
        let (moment, port, datagram) = received;
        let Some(gateway) = &mut self.gateway else {
            unreachable!()
        };
        gateway.frame(moment, port, datagram);
    }

    fn end(&mut self, _out: &mut TextBuffer) {
        let Some(gateway) = &mut self.gateway else {
            unreachable!()
        };
        gateway.end();
    }

    fn next(&mut self, out: &mut TextBuffer) -> bool {
        let Some(gateway) = &mut self.gateway else {
            unreachable!()
        };
        gateway.put_record(out)
    }
}
