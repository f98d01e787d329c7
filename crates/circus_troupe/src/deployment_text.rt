// The Ringmaster and the troupes as they are written.
use crate::{HostTexts, TroupeTexts};
use circus_syntax::{Named, Numeral};

/// The node of the Ringmaster and its port (docs/LANGUAGE.md, "Deployments"). Any number is a port here.
#[derive(Debug, Drop)]
pub struct RingmasterText {
    pub name: Named,
    pub port: Numeral,
}

/// How calls or replies are collated (docs/PROTOCOL.md, "Collators").
#[derive(Clone, Copy, Debug, PartialEq, Eq)]
pub enum WrittenKind {
    First,
    Majority,
    Unanimous,
    /// The number behind LEAST, whatever it is.
    AtLeast(Numeral),
    /// Of replies alone.
    Watchdog,
}

/// How calls or replies are collated, with its place.
#[derive(Clone, Copy, Debug, PartialEq, Eq)]
pub struct KindText {
    /// The place of its first byte, counted from 0.
    pub at: u32,
    pub kind: WrittenKind,
}

/// A node and its port. Any number is a port here.
#[derive(Debug, Drop)]
pub struct HostText {
    pub name: Named,
    pub port: Numeral,
}

/// A troupe: the name of its module, how it collates calls and replies, the nodes of its members, at least one, and those
/// that may join it, at least one where SPARES is written.
#[derive(Debug, Drop)]
pub struct TroupeText {
    pub name: Named,
    pub calls: KindText,
    pub replies: KindText,
    pub members: HostTexts,
    pub spares: Option<HostTexts>,
}

/// The Ringmaster and the troupes, in order.
#[derive(Debug, Drop)]
pub struct DeploymentText {
    pub ringmaster: RingmasterText,
    pub troupes: TroupeTexts,
}
