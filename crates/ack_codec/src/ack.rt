use crate::responses::Responses;
use cam_field::{Cam, Ident};
use vrt_fields::FieldSet;
use vrt_header::Prologue;

/// An acknowledgement of a command's validation or execution.
#[derive(Clone, Copy, Debug, PartialEq, Eq)]
pub struct AckReport {
    pub prologue: Prologue,
    /// The control and acknowledge mode word.
    pub cam: Cam,
    /// The message identifier of the command.
    pub message: u32,
    /// The identity of the controllee.
    pub controllee: Ident,
    /// The identity of the controller.
    pub controller: Ident,
    /// The warnings, there exactly where bit 17 of the mode word is set.
    pub warnings: Option<Responses>,
    /// The errors, there exactly where bit 16 of the mode word is set.
    pub errors: Option<Responses>,
}

/// An answer to a query of the state.
#[derive(Clone, Copy, Debug, PartialEq, Eq)]
pub struct AckState {
    pub prologue: Prologue,
    /// The control and acknowledge mode word.
    pub cam: Cam,
    /// The message identifier of the command.
    pub message: u32,
    /// The identity of the controllee.
    pub controllee: Ident,
    /// The identity of the controller.
    pub controller: Ident,
    /// The fields that were asked for, with their values.
    pub fields: FieldSet,
}

/// An acknowledgement of a command.
#[derive(Clone, Copy, Debug, PartialEq, Eq)]
pub enum Ack {
    /// Of its validation (AckV).
    V(AckReport),
    /// Of its execution (AckX).
    X(AckReport),
    /// The state that it asked for (AckS).
    S(AckState),
}
