use record_run::Teller;
use replay_form::{RecordHead, RecordReader, Route, encode_head, migrate_head_into};
use std::alloc::Global;
use std::marker::Model;
use std::mem;
use text_buffer::TextBuffer;
use vrt_words::NoMemory;

/// The most routes of a header.
const MOST_ROUTES: usize = 256;

/// The most bytes of a header: 332, and 16 for each route.
const MOST_HEADER: usize = 4_428;

/// What `migrate` tells of a record: its header in form 2, and then its frames as they stand.
#[derive(Drop)]
pub(crate) struct Migration {
    started: bool,
    // The bytes of the header that are owed; until it came, room for it.
    header: Vec<u8>,
    // Room for the routes of the header, until it came.
    routes: Vec<Route>,
    frames: u64,
    ended: bool,
}

impl Model for Migration {
    ghost use Rattle.std.specs.Prelude.{vec_capacity};
    ghost use Rattle.difi_cmd.specs.Migrating.{Migrating, HasRoom};

    ghost Value = { Migrating };

    ghost view = { λ it. record {
      started = it.started;
      owed = it.header.items;
      frames = it.frames;
      ended = it.ended;
    } };

    ghost invariant = { λ it.
        HasRoom it.started it.header.items it.routes.items (vec_capacity it.routes) };
}

impl Migration {
    ghost use Rattle.std.specs.Prelude.{◌≡◌, ◌<◌, ◌≤◌, ◌+◌, ◌^◌, ◌++◌, ℕ, length, true, false, IfOk};
    ghost use Rattle.vrt_words.specs.Words.{AreBytes};
    ghost use Rattle.replay_form.specs.HeadValues.{AreHeadValues};
    ghost use Rattle.difi_cmd.specs.Migrating.{IsStarted};

    /// No header so far.
    pub fn open(alloc: Global) -> Result<Self, NoMemory>
        ensures started { IfOk result (λ migration. migration.started ≡ false) }
        ensures frames { IfOk result (λ migration. migration.frames ≡ 0) }
        ensures ended { IfOk result (λ migration. migration.ended ≡ false) }
    {
        let Ok(header) = Vec::from_elem(alloc, 0, MOST_HEADER) else {
            return Err(NoMemory);
        };
        let Ok(routes) = Vec::with_capacity(alloc, MOST_ROUTES) else {
            return Err(NoMemory);
        };
        Ok(Migration {
            started: false,
            header,
            routes,
            frames: 0,
            ended: false,
        })
    }

    // The header came.
    fn start(&mut self, alloc: Global, head: &RecordHead)
        requires first { self.old.started ≡ false }
        requires valid { AreHeadValues head.now }
        ensures { IsStarted head.now self.old self.new }
    {
        let routes = mem::replace(&mut self.routes, Vec::new(alloc));
        let migrated = migrate_head_into(head, routes);
        let length = encode_head(&migrated, &mut self.header);
        self.header.truncate(length);
        self.started = true;
    }

    // Puts the bytes of a frame.
    fn put(&mut self, bytes: &[u8], out: &mut TextBuffer)
        requires fits { self.old.frames + 1 < 2 ^ 63 }
        requires room { length out.old < 65536 }
        requires most { length bytes.now ≤ 65555 }
        ensures frames { self.new ≡ record self.old { frames = self.old.frames + 1 } }
        ensures text { out.new ≡ out.old ++ bytes.now }
        ensures bytes { AreBytes bytes.now }
    {
        out.push(bytes);
        self.frames += 1;
    }
}

impl Teller<RecordReader> for Migration {
    ghost use Rattle.difi_cmd.specs.Migrating.{migrated_by};

    ghost tells = { λ it. migrated_by it };

    fn wants_memory(&self) -> bool {
        false
    }

    fn begin(&mut self, alloc: Global, intake: &RecordReader) -> Result<(), NoMemory> {
        let Some(head) = intake.head() else {
            unreachable!()
        };
        if !self.started {
            self.start(alloc, head);
        }
        Ok(())
    }

    fn frame(&mut self, intake: &RecordReader, bytes: &[u8], out: &mut TextBuffer) {
        let Some(frame) = intake.frame_bytes(bytes) else {
            unreachable!()
        };
        self.put(frame, out);
    }

    fn end(&mut self, _out: &mut TextBuffer) {
        self.ended = true;
    }

    fn next(&mut self, out: &mut TextBuffer) -> bool {
        if self.header.is_empty() {
            return false;
        }
        out.push(&self.header);
        self.header.clear();
        true
    }
}
