ghost use Rattle.vrt_fields.specs.Limits.{AreLimits};

use crate::tests::harness::{Payload, Time, Tuning, context, fields, moment, packet, stamp};
use crate::tests::player::Player;
use crate::{Limits, Reason, Run, Turned};
use std::alloc::Global;

/// What a test does with a binder, and what it expects.
#[derive(Clone, Copy)]
pub(crate) enum Step {
    /// A context with this time, count and CIF0 is given and taken.
    Context {
        stamp: Time,
        count: u8,
        cif0: u32,
        tuning: Tuning,
    },
    /// A context with this time, count and CIF0 is given and turned away.
    ContextTurned {
        stamp: Time,
        count: u8,
        cif0: u32,
        tuning: Tuning,
        answer: Answer,
    },
    /// A data packet with this time and count is given and taken.
    Data {
        stamp: Time,
        count: u8,
        payload: Payload,
    },
    /// A data packet with this time and count is given and turned away: its buffer comes back.
    DataTurned {
        stamp: Time,
        count: u8,
        payload: Payload,
        answer: Answer,
    },
    /// The stream ends.
    End,
    /// A packet leaves, with so many lost before it.
    Packet {
        lost: u8,
    },
    /// Samples of a packet of this time, from this one on, so many, the first captured then, are
    /// bound to a context with this tuning; and they have so many bits.
    Bound {
        stamp: Time,
        first: u32,
        number: u32,
        at: Time,
        tuning: Tuning,
        bits: u8,
    },
    /// Samples of a packet of this time, from this one on, so many, the first captured then, are
    /// uncertain; and they have so many bits.
    Uncertain {
        reason: Reason,
        stamp: Time,
        first: u32,
        number: u32,
        at: Time,
        bits: u8,
    },
    /// The packet of this time is whole, with so many unused bits.
    Raw {
        reason: Reason,
        stamp: Time,
        pad: u8,
    },
    /// Nothing is due.
    Nothing,
}

pub(crate) fn context_given(stamp: Time, count: u8, cif0: u32, tuning: Tuning) -> Step {
    Step::Context {
        stamp,
        count,
        cif0,
        tuning,
    }
}

pub(crate) fn context_turned(
    stamp: Time,
    count: u8,
    cif0: u32,
    tuning: Tuning,
    answer: Answer,
) -> Step {
    Step::ContextTurned {
        stamp,
        count,
        cif0,
        tuning,
        answer,
    }
}

pub(crate) fn data_given(stamp: Time, count: u8, payload: Payload) -> Step {
    Step::Data {
        stamp,
        count,
        payload,
    }
}

pub(crate) fn data_turned(stamp: Time, count: u8, payload: Payload, answer: Answer) -> Step {
    Step::DataTurned {
        stamp,
        count,
        payload,
        answer,
    }
}

pub(crate) fn packet_leaves(lost: u8) -> Step {
    Step::Packet { lost }
}

pub(crate) fn bound(
    stamp: Time,
    first: u32,
    number: u32,
    at: Time,
    tuning: Tuning,
    bits: u8,
) -> Step {
    Step::Bound {
        stamp,
        first,
        number,
        at,
        tuning,
        bits,
    }
}

pub(crate) fn uncertain(
    reason: Reason,
    stamp: Time,
    first: u32,
    number: u32,
    at: Time,
    bits: u8,
) -> Step {
    Step::Uncertain {
        reason,
        stamp,
        first,
        number,
        at,
        bits,
    }
}

pub(crate) fn raw(reason: Reason, stamp: Time, pad: u8) -> Step {
    Step::Raw { reason, stamp, pad }
}

/// Why a packet is turned away.
#[derive(Clone, Copy)]
pub(crate) enum Answer {
    Late(Time),
    Repeat,
    Conflict(u8),
}

/// The step that went wrong, and how.
#[derive(Debug, Drop)]
pub(crate) struct Wrong {
    pub(crate) step: usize,
    pub(crate) why: &'static str,
}

/// Opens a binder and does these steps.
pub(crate) fn play(alloc: Global, limits: Limits, steps: &[Step]) -> Result<(), Wrong>
    requires { AreLimits limits }
{
    let mut player = match Player::open(alloc, limits) {
        Ok(player) => player,
        Err(why) => return Err(Wrong { step: 0, why }),
    };
    for (i, step) in steps.iter().enumerate() {
        if let Err(why) = carry_out(&mut player, alloc, step) {
            return Err(Wrong { step: i, why });
        }
    }
    Ok(())
}

fn carry_out(player: &mut Player, alloc: Global, step: &Step) -> Result<(), &'static str> {
    match *step {
        Step::Context {
            stamp,
            count,
            cif0,
            tuning,
        } => give_context(player, stamp, count, cif0, tuning, None),
        Step::ContextTurned {
            stamp,
            count,
            cif0,
            tuning,
            answer,
        } => give_context(player, stamp, count, cif0, tuning, Some(answer)),
        Step::Data {
            stamp,
            count,
            payload,
        } => give_data(player, alloc, stamp, count, &payload),
        Step::DataTurned {
            stamp,
            count,
            payload,
            answer,
        } => turn_data(player, alloc, stamp, count, &payload, answer),
        Step::End => player.end(),
        _ => expect(player, step),
    }
}

pub(crate) fn give_context(
    player: &mut Player,
    time: Time,
    count: u8,
    cif0: u32,
    tuning: Tuning,
    answer: Option<Answer>,
) -> Result<(), &'static str> {
    let wanted = match answer {
        Some(answer) => Some(turned_by(answer)?),
        None => None,
    };
    let given = player.context(context(time, count, cif0, tuning)?)?;
    check(given == wanted, "another answer")
}

pub(crate) fn give_data(
    player: &mut Player,
    alloc: Global,
    time: Time,
    count: u8,
    payload: &Payload,
) -> Result<(), &'static str> {
    match player.data(packet(alloc, time, count, payload)?)? {
        None => Ok(()),
        Some((_, buf)) => {
            drop(buf);
            Err("turned away")
        }
    }
}

fn turn_data(
    player: &mut Player,
    alloc: Global,
    time: Time,
    count: u8,
    payload: &Payload,
    answer: Answer,
) -> Result<(), &'static str> {
    let given = packet(alloc, time, count, payload)?;
    let Some((turned, buf)) = player.data(packet(alloc, time, count, payload)?)? else {
        return Err("taken");
    };
    let is_wanted = turned == turned_by(answer)? && buf.bytes() == given.bytes();
    check(is_wanted, "another answer")
}

// It is as wanted, or else this is wrong.
pub(crate) fn check(is_wanted: bool, why: &'static str) -> Result<(), &'static str> {
    if is_wanted { Ok(()) } else { Err(why) }
}

fn turned_by(answer: Answer) -> Result<Turned, &'static str> {
    match answer {
        Answer::Late(time) => Ok(Turned::Late(stamp(time)?)),
        Answer::Repeat => Ok(Turned::Repeat),
        Answer::Conflict(held) => Ok(Turned::Conflict(held)),
    }
}

// The next output is that of the step.
fn expect(player: &mut Player, step: &Step) -> Result<(), &'static str> {
    match *step {
        Step::Packet { lost } => check(player.packet()? == lost, "another number lost"),
        Step::Nothing => player.nothing(),
        _ => check(player.run()? == run_of(step)?, "another run"),
    }
}

pub(crate) fn run_of(step: &Step) -> Result<Run, &'static str> {
    match *step {
        Step::Bound {
            stamp: time,
            first,
            number,
            at,
            tuning,
            bits,
        } => Ok(Run::Bound {
            stamp: stamp(time)?,
            first,
            number,
            at: moment(at),
            fields: fields(tuning),
            bits,
        }),
        Step::Uncertain {
            reason,
            stamp: time,
            first,
            number,
            at,
            bits,
        } => Ok(Run::Uncertain {
            reason,
            stamp: stamp(time)?,
            first,
            number,
            at: moment(at),
            bits,
        }),
        Step::Raw {
            reason,
            stamp: time,
            pad,
        } => Ok(Run::Raw {
            reason,
            stamp: stamp(time)?,
            pad,
        }),
        _ => Err("no run"),
    }
}
