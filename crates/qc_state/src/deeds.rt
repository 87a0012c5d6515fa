//! The deeds of a call: what a connection did, in order.

ghost use Rattle.std.specs.Prelude.{◌≡◌, [], ◌∷◌, ◌++◌, OnOk, OnErr};

use crate::given::Given;
use crate::life::ConnectionError;
use qc_base::SpaceId;
use qc_frame::FrameList;
use std::alloc::{AllocError, Global};
use std::marker::Model;

/// Why a transmit sent nothing.
#[derive(Clone, Copy)]
pub enum Quiet {
    /// Nothing was owed.
    NothingOwed,
    /// The connection had ended before the call.
    Silent,
    /// The peer's address isn't validated, and three times the bytes that came from it were sent (RFC 9000, 8.1).
    Amplification,
    /// What is owed elicits acknowledgements, and would fill the congestion window (RFC 9002, 7).
    Congestion,
    /// The pacer holds a datagram back, until the time of its timer (RFC 9002, 7.7).
    Pacing,
    /// The call ended the connection.
    Killed,
}

/// What became of a packet that came. A verdict on stateless resets isn't given yet.
#[derive(Clone, Copy)]
pub enum Verdict {
    /// It changed nothing: a key that its form needs is missing, it is too short to be unmasked, or it has no number and isn't
    /// taken.
    Ignored,
    /// Its key didn't open it (RFC 9001, 5.5).
    Failure,
    /// Its reserved bits weren't 0 (RFC 9000, 17.2).
    BadBits,
    /// It shows a key update that its sender wasn't allowed to make (RFC 9001, 6.2 and 6.4).
    BadUpdate,
    /// A packet with its number had come before (RFC 9000, 12.3).
    Seen,
    /// This end had closed: only a close in it counts.
    ReadForClose,
    /// Before the handshake was over, it is a 1-RTT packet (RFC 9001, 5.7), or an Initial packet that came to a server with
    /// another token than the first one had: only its number counts.
    NumberOnly,
    /// Its source id isn't the peer's (RFC 9000, 7.2): it is acknowledged, and its frames don't count.
    AckOnly,
    /// Its frames were applied.
    Admitted,
    /// It is a Retry that a client took (RFC 9000, 17.2.5).
    RetryTaken,
    /// It is a Version Negotiation packet without this end's version, which ended a client's connection (RFC 9000, 6.2).
    Versions,
}

/// The layer that a frame was given to.
#[derive(Clone, Copy)]
pub enum Layer {
    /// The streams.
    Streams,
    /// Loss recovery: acknowledgements.
    Recovery,
    /// The session: bytes of the handshake.
    Session,
    /// The connection ids of both ends.
    Ids,
    /// The life of the connection: closes.
    Life,
    /// The store of tokens (RFC 9000, 8.1.3).
    Store,
}

/// One thing that a connection did.
#[derive(Drop)]
pub enum Did {
    /// A packet was sealed.
    Sealed {
        /// Its packet number space.
        space: SpaceId,
        /// Its packet number.
        number: u64,
        /// The epoch of its key; 0 outside 1-RTT.
        epoch: u64,
        /// Whether it is a 0-RTT packet.
        early: bool,
        /// Its frames, PADDING included.
        frames: FrameList,
    },
    /// A packet came.
    Piece {
        /// The number space of its form; none of a form that has no numbers.
        space: Option<SpaceId>,
        /// Its number, where it opened.
        number: Option<u64>,
        /// What became of it.
        verdict: Verdict,
    },
    /// A frame was given to a layer.
    Gave {
        /// The layer.
        layer: Layer,
        /// The frame as it is written.
        body: Given,
    },
    /// The life rose to this rank.
    Rose {
        /// The rank of the state that it rose to.
        life: u8,
    },
    /// A reason for the end was given.
    Lost(ConnectionError),
    /// A transmit sent nothing, for this cause.
    Quiet(Quiet),
}

/// The deeds of a call, in order. Contracts see a list.
#[derive(Drop)]
pub struct Dids {
    deeds: Vec<Did>,
}

impl Model for Dids {
    ghost use Rattle.std.specs.Prelude.{List};
    ghost use Rattle.qc_state.specs.declared.deeds.Did.{Did};

    ghost Value = { List Did };

    ghost view = { λ l. l.deeds.items };
}

impl Dids {
    /// No deeds.
    pub fn new(alloc: Global) -> Dids
        ensures { result ≡ [] }
    {
        Dids {
            deeds: Vec::new(alloc),
        }
    }

    /// A packet was sealed. Want of memory is the only refusal, and then the list is as before.
    pub fn push_sealed(
        &mut self,
        space: SpaceId,
        number: u64,
        epoch: u64,
        early: bool,
        frames: FrameList,
    ) -> Result<(), AllocError>
        ensures ok { OnOk result (self.new ≡ self.old ++ Did.Sealed space number epoch early frames ∷ []) }
        ensures err { OnErr result (self.new ≡ self.old) }
    {
        self.deeds.push(Did::Sealed {
            space,
            number,
            epoch,
            early,
            frames,
        })?;
        Ok(())
    }

    /// A packet came. Want of memory is the only refusal, and then the list is as before.
    pub fn push_piece(
        &mut self,
        space: Option<SpaceId>,
        number: Option<u64>,
        verdict: Verdict,
    ) -> Result<(), AllocError>
        ensures ok { OnOk result (self.new ≡ self.old ++ Did.Piece space number verdict ∷ []) }
        ensures err { OnErr result (self.new ≡ self.old) }
    {
        self.deeds.push(Did::Piece {
            space,
            number,
            verdict,
        })?;
        Ok(())
    }

    /// A frame was given to a layer. Want of memory is the only refusal, and then the list is as before.
    pub fn push_gave(&mut self, layer: Layer, body: Given) -> Result<(), AllocError>
        ensures ok { OnOk result (self.new ≡ self.old ++ Did.Gave layer body ∷ []) }
        ensures err { OnErr result (self.new ≡ self.old) }
    {
        self.deeds.push(Did::Gave { layer, body })?;
        Ok(())
    }

    /// The life rose to this rank. Want of memory is the only refusal, and then the list is as before.
    pub fn push_rose(&mut self, life: u8) -> Result<(), AllocError>
        ensures ok { OnOk result (self.new ≡ self.old ++ Did.Rose life ∷ []) }
        ensures err { OnErr result (self.new ≡ self.old) }
    {
        self.deeds.push(Did::Rose { life })?;
        Ok(())
    }

    /// A reason for the end was given. Want of memory is the only refusal, and then the list is as before.
    pub fn push_lost(&mut self, reason: ConnectionError) -> Result<(), AllocError>
        ensures ok { OnOk result (self.new ≡ self.old ++ Did.Lost reason ∷ []) }
        ensures err { OnErr result (self.new ≡ self.old) }
    {
        self.deeds.push(Did::Lost(reason))?;
        Ok(())
    }

    /// A transmit sent nothing. Want of memory is the only refusal, and then the list is as before.
    pub fn push_quiet(&mut self, quiet: Quiet) -> Result<(), AllocError>
        ensures ok { OnOk result (self.new ≡ self.old ++ Did.Quiet quiet ∷ []) }
        ensures err { OnErr result (self.new ≡ self.old) }
    {
        self.deeds.push(Did::Quiet(quiet))?;
        Ok(())
    }

    /// Lets go of all deeds, and keeps their room.
    pub fn clear(&mut self)
        ensures { self.new ≡ [] }
    {
        self.deeds.clear();
    }

    /// The deeds.
    pub fn as_slice(&self) -> &[Did]
        ensures { result.now ≡ self.now }
    {
        self.deeds.as_slice()
    }
}
