ghost use Rattle.std.specs.Prelude.{◌≡◌, ℕ, ◌+◌, ◌*◌, ◌≤◌, [], ◌∷◌, ◌++◌, IfSome, length, take, drop};
ghost use Rattle.vrt_words.specs.Words.{words_of};
ghost use Rattle.vrt_time.specs.Time.{IsStamp, parts_of};
ghost use Rattle.sample_binder.specs.Reasons.{number_of, detail_of};
ghost use Rattle.release_form.specs.Layout.{front_of, front_of_run, kind_of_run};
ghost use Rattle.release_form.specs.declared.shown.Shown.TheVariants as shown;
ghost use Rattle.release_form.specs.Front.{high_word, low_word, front_words, run_words, moment_words, late_words, count_words, IsTyped, IsTypedRun};

use crate::shown::Shown;
use sample_binder::{Reason, Run};
use vrt_time::{Moment, Stamp};
use vrt_words::put_words;

/// Writes the words in front of the variable part: the kind, the length of what follows, and the
/// fixed positions. All other bytes stay.
pub(crate) fn put_front(shown: &Shown, body: u32, into: &mut [u8])
    requires { front_of shown.now ≤ length into.old }
    ensures words { words_of (take (front_of shown.now) into.new) ≡ front_words shown.now body }
    ensures behind { drop (front_of shown.now) into.new ≡ drop (front_of shown.now) into.old }
    ensures typed { IsTyped shown.now }
{
    match shown {
        Shown::Run {
            stream,
            port,
            lost,
            run,
        } => put_front_of_run(*stream, *port, *lost, run, body, into),
        Shown::Refused {
            frame,
            port,
            reason,
            detail,
            stamp,
        } => {
            put_next(into, 0, &[5, body]);
            put_refused(*frame, *port, *reason, *detail, stamp, into);
        }
        Shown::Ack { port } => put_next(into, 0, &[4, body, u32::from(*port)]),
        Shown::Version { port } => put_next(into, 0, &[6, body, u32::from(*port)]),
        Shown::End { counts } => {
            put_next(into, 0, &[7, body]);
            put_counts(counts, into);
        }
    }
}

/// Writes the words in front of the variable part of a run, as `put_front` does. All other bytes
/// stay.
pub(crate) fn put_front_of_run(
    stream: u32,
    port: u16,
    lost: u8,
    run: &Run,
    body: u32,
    into: &mut [u8],
)
    requires { front_of_run run.now ≤ length into.old }
    ensures words { words_of (take (front_of_run run.now) into.new)
        ≡ front_words (shown.Run stream port lost run.now) body }
    ensures behind { drop (front_of_run run.now) into.new ≡ drop (front_of_run run.now) into.old }
    ensures typed { IsTyped (shown.Run stream port lost run.now) }
{
    put_next(
        into,
        0,
        &[kind_of(run), body, stream, u32::from(port), u32::from(lost)],
    );
    put_run(run, into);
}

// The kind of a run's record.
fn kind_of(run: &Run) -> u32
    ensures { result ≡ kind_of_run run.now }
{
    match run {
        Run::Bound { .. } => 1,
        Run::Uncertain { .. } => 2,
        Run::Raw { .. } => 3,
    }
}

// The positions of a run behind its stream, its port and the number lost.
fn put_run(run: &Run, into: &mut [u8])
    requires { front_of_run run.now ≤ length into.old }
    ensures words { words_of (take (front_of_run run.now) into.new)
        ≡ words_of (take 20 into.old) ++ run_words run.now }
    ensures behind { drop (front_of_run run.now) into.new ≡ drop (front_of_run run.now) into.old }
    ensures typed { IsTypedRun run.now }
{
    match run {
        Run::Bound {
            stamp,
            first,
            number,
            at,
            fields,
            ..
        } => {
            put_span(into, 5, stamp, [*first, *number], at);
            put_next(into, 14, fields);
        }
        Run::Uncertain {
            reason,
            stamp,
            first,
            number,
            at,
            ..
        } => {
            put_next(into, 5, &numbers_of(*reason));
            put_span(into, 7, stamp, [*first, *number], at);
        }
        Run::Raw { reason, stamp, pad } => {
            put_next(into, 5, &numbers_of(*reason));
            put_next(into, 7, &stamp.parts());
            put_next(into, 10, &[u32::from(*pad)]);
        }
    }
}

// The packet's stamp, the first sample and the number of samples, and the capture moment.
fn put_span(into: &mut [u8], position: usize, stamp: &Stamp, samples: [u32; 2], at: &Moment)
    requires { 4 * (position + 9) ≤ length into.old }
    ensures words { words_of (take (4 * (position + 9)) into.new)
        ≡ words_of (take (4 * position) into.old)
        ++ (parts_of stamp.now ++ (samples ++ moment_words at.now)) }
    ensures behind { (n : ℕ) → 4 * (position + 9) ≤ n → drop n into.new ≡ drop n into.old }
    ensures typed { IsStamp stamp.now }
{
    put_next(into, position, &stamp.parts());
    put_next(into, position + 3, &samples);
    put_next(into, position + 5, &words_of_moment(at));
}

// The positions of a refused frame behind the length. Where there is no stamp, its positions are 0.
fn put_refused(
    frame: u64,
    port: u16,
    reason: u8,
    detail: u32,
    stamp: &Option<Stamp>,
    into: &mut [u8],
)
    requires { 40 ≤ length into.old }
    ensures words { words_of (take 40 into.new) ≡ words_of (take 8 into.old)
        ++ (high_word frame ∷ low_word frame ∷ port ∷ reason ∷ detail ∷ late_words stamp.now) }
    ensures behind { drop 40 into.new ≡ drop 40 into.old }
    ensures typed { IfSome stamp.now IsStamp }
{
    put_next(
        into,
        2,
        &[
            high(frame),
            low(frame),
            u32::from(port),
            u32::from(reason),
            detail,
        ],
    );
    match stamp {
        Some(stamp) => put_next(into, 7, &stamp.parts()),
        None => put_next(into, 7, &[0, 0, 0]),
    }
}

// Seven numbers.
fn put_counts(counts: &[u64; 7], into: &mut [u8])
    requires { 64 ≤ length into.old }
    ensures words { words_of (take 64 into.new)
        ≡ words_of (take 8 into.old) ++ count_words counts.now }
    ensures behind { drop 64 into.new ≡ drop 64 into.old }
    ensures typed { length counts.now ≡ 7 }
{
    for (index, count) in counts.iter().enumerate() {
        put_next(into, 2 + 2 * index, &[high(*count), low(*count)]);
    }
}

// Writes words behind those that stand in front of a position. All bytes behind them stay.
fn put_next(into: &mut [u8], position: usize, words: &[u32])
    requires { 4 * (position + length words.now) ≤ length into.old }
    ensures words { words_of (take (4 * (position + length words.now)) into.new)
        ≡ words_of (take (4 * position) into.old) ++ words.now }
    ensures behind { (n : ℕ) → 4 * (position + length words.now) ≤ n
        → drop n into.new ≡ drop n into.old }
{
    put_words(into, position, words);
}

// The number of a reason, and its detail.
fn numbers_of(reason: Reason) -> [u32; 2]
    ensures { result ≡ number_of reason ∷ detail_of reason ∷ [] }
{
    [reason.number(), reason.detail()]
}

// Four words.
fn words_of_moment(moment: &Moment) -> [u32; 4]
    ensures { result ≡ moment_words moment.now }
{
    let picos = moment.picos();
    let upper = (picos >> 64) as u64;
    let lower = (picos % (1 << 64)) as u64;
    [high(upper), low(upper), high(lower), low(lower)]
}

// The high word of a number, and the low one.
fn high(number: u64) -> u32
    ensures { result ≡ high_word number }
{
    (number >> 32) as u32
}

fn low(number: u64) -> u32
    ensures { result ≡ low_word number }
{
    (number % (1 << 32)) as u32
}
