ghost use Rattle.std.specs.Prelude.{◌≡◌, ◌+◌, ◌*◌, ◌<◌, ◌≤◌, ◌==◌, ◌^◌, ◌↔◌, ℕ, IsTrue, IfSome, IfNone, Some};
ghost use Rattle.vrt_words.specs.Words.{bits};
ghost use Rattle.cam_field.specs.Cam.{IsCam, IsSpelled, IsAllowed};
ghost use Rattle.cam_field.specs.Spelling.{command_bits, answer_bits, outcome_bits};
ghost use Rattle.cam_field.specs.declared.cam.Cam.{Cam};

use crate::modes::{Action, Role, Timing};
use vrt_words::bits_of;

/// The control and acknowledge mode word: what a command asks for, and in an acknowledgement what
/// was done.
#[derive(Clone, Copy, Debug, PartialEq, Eq)]
pub struct Cam {
    /// CE, bit 31: the packet names its controllee.
    pub ce: bool,
    /// Bit 30: the controllee's identity is a UUID and no word.
    pub ie: bool,
    /// CR, bit 29: the packet names its controller.
    pub cr: bool,
    /// Bit 28: the controller's identity is a UUID and no word.
    pub ir: bool,
    /// P, bit 27: a part of the fields may be executed where others cannot be.
    pub partial: bool,
    /// W, bit 26: fields with a warning may be executed.
    pub warnings: bool,
    /// ER, bit 25: fields with an error may be executed.
    pub errors: bool,
    /// Bits 24 and 23.
    pub action: Action,
    /// NK, bit 22: only what is wrong is acknowledged.
    pub nk: bool,
    /// V, bit 20: an acknowledgement of the validation, asked for or given.
    pub v: bool,
    /// X, bit 19: an acknowledgement of the execution, asked for or given.
    pub x: bool,
    /// S, bit 18: a query of the state, asked for or answered.
    pub s: bool,
    /// Bit 17: in an acknowledgement of validation or execution, warnings follow.
    pub warned: bool,
    /// Bit 16: in an acknowledgement of validation or execution, errors follow.
    pub erred: bool,
    /// Bits 14 to 12.
    pub timing: Timing,
    /// Bit 11: a part of the fields was executed.
    pub in_part: bool,
    /// Bit 10: fields were executed.
    pub executed: bool,
}

impl Cam {
    /// The CAM that a word spells in a packet of this role, which is timed or not.
    ///
    /// `None` exactly where no such packet can have this word.
    pub fn read(role: Role, timed: bool, word: u32) -> Option<Cam>
        ensures found { IfSome result (λ cam. IsCam role timed cam word) }
        ensures only { (cam : Cam) → IsCam role timed cam word → result ≡ Some cam }
        ensures none { IfNone result ((cam : Cam) → ¬ IsCam role timed cam word) }
    {
        let cam = cam_of(word)?;
        if is_allowed(role, timed, &cam) {
            Some(cam)
        } else {
            None
        }
    }

    /// The word that spells the CAM.
    ///
    /// It is the only one: reading it gives the CAM again in each role that allows the CAM, and
    /// writing what was read gives the word.
    pub fn write(&self) -> u32
        ensures spelled { IsSpelled self.now result }
        ensures again { (word : ℕ) → word < 2 ^ 32 → IsSpelled self.now word → result ≡ word }
    {
        (command_of(self) << 22) + (answer_of(self) << 16) + (outcome_of(self) << 10)
    }
}

// Whether a bit of the word is set.
fn is_set(word: u32, bit: u32) -> bool
    requires { bit < 32 }
    ensures { result ≡ (bits word bit 1 == 1) }
{
    bits_of(word, bit, 1) == 1
}

// The CAM that the word spells, whatever the role.
fn cam_of(word: u32) -> Option<Cam>
    ensures found { IfSome result (λ cam. IsSpelled cam word) }
    ensures only { (cam : Cam) → IsSpelled cam word → result ≡ Some cam }
{
    let action = Action::of_code(bits_of(word, 23, 2))?;
    let timing = Timing::of_code(bits_of(word, 12, 3))?;
    if bits_of(word, 21, 1) != 0 || bits_of(word, 15, 1) != 0 || bits_of(word, 0, 10) != 0 {
        return None;
    }
    Some(Cam {
        ce: is_set(word, 31),
        ie: is_set(word, 30),
        cr: is_set(word, 29),
        ir: is_set(word, 28),
        partial: is_set(word, 27),
        warnings: is_set(word, 26),
        errors: is_set(word, 25),
        action,
        nk: is_set(word, 22),
        v: is_set(word, 20),
        x: is_set(word, 19),
        s: is_set(word, 18),
        warned: is_set(word, 17),
        erred: is_set(word, 16),
        timing,
        in_part: is_set(word, 11),
        executed: is_set(word, 10),
    })
}

// Whether a packet of this role can have the CAM.
fn is_allowed(role: Role, timed: bool, cam: &Cam) -> bool
    ensures { IsTrue result ↔ IsAllowed role timed cam.now }
{
    if cam.ie && !cam.ce || cam.ir && !cam.cr {
        return false;
    }
    if !timed && cam.timing != Timing::Now {
        return false;
    }
    match role {
        Role::Control => !cam.in_part && !cam.executed,
        Role::Cancel => {
            !cam.v && !cam.s && cam.timing == Timing::Now && !cam.in_part && !cam.executed
        }
        Role::Ack => match (cam.v, cam.x, cam.s) {
            (true, false, false) => !cam.in_part && !cam.executed,
            (false, true, false) => true,
            (false, false, true) => !cam.warned && !cam.erred && !cam.in_part && !cam.executed,
            _ => false,
        },
    }
}

// Bits 31 to 22, which an acknowledgement has from its command.
fn command_of(cam: &Cam) -> u32
    ensures bits { result ≡ command_bits cam.now }
    ensures fits { result < 2 ^ 10 }
{
    (u32::from(cam.ce) << 9)
        + (u32::from(cam.ie) << 8)
        + (u32::from(cam.cr) << 7)
        + (u32::from(cam.ir) << 6)
        + (u32::from(cam.partial) << 5)
        + (u32::from(cam.warnings) << 4)
        + (u32::from(cam.errors) << 3)
        + (cam.action.code() << 1)
        + u32::from(cam.nk)
}

// Bits 20 to 16.
fn answer_of(cam: &Cam) -> u32
    ensures bits { result ≡ answer_bits cam.now }
    ensures fits { result < 2 ^ 5 }
{
    (u32::from(cam.v) << 4)
        + (u32::from(cam.x) << 3)
        + (u32::from(cam.s) << 2)
        + (u32::from(cam.warned) << 1)
        + u32::from(cam.erred)
}

// Bits 14 to 10.
fn outcome_of(cam: &Cam) -> u32
    ensures bits { result ≡ outcome_bits cam.now }
    ensures fits { result < 2 ^ 5 }
{
    (cam.timing.code() << 2) + (u32::from(cam.in_part) << 1) + u32::from(cam.executed)
}
