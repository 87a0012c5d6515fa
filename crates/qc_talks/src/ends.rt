//! One end: a connection that is driven input by input, and the text of all its steps.

use crate::posts::Posts;
use crate::setups::{
    Toy, client_address, client_storing, client_to, server, server_address, server_sending,
};
use crate::tally::Tally;
use qc_base::{ConnectionId, EcnCodepoint, Instant, VarInt};
use qc_config::{NoneTokenStore, TokenMemoryCache, TokenStore};
use qc_conn::text::trace_text;
use qc_conn::{Connection, drive};
use qc_recovery::TransportConfig;
use qc_state::{Answer, Body, Input, Step, Trace};
use std::alloc::{AllocError, Global};
use std::default::Default;
use std::net::SocketAddr;
use std::slice;
use std::test::Fail;

/// One end, and where its datagrams come from.
#[derive(Drop)]
pub(crate) struct End {
    /// On the heap: a function that owns a whole connection is slow to check.
    connection: Box<Connection<Toy>>,
    /// Where its datagrams come from.
    pub(crate) address: SocketAddr,
    /// The text of its steps: the lines of a trace each.
    pub(crate) text: String,
    /// Whether its steps aren't told in the text.
    quiet: bool,
    /// What its steps told of streams.
    pub(crate) tally: Tally,
    /// What they told of datagrams.
    pub(crate) posts: Posts,
}

/// The lines of a text that begin with these words, each with its end.
pub(crate) fn lines_with(alloc: Global, text: &str, words: &str) -> Result<String, AllocError> {
    let mut kept = String::new(alloc);
    let mut rest = text;
    for _ in 0..text.len() {
        match rest.split_once("\n") {
            Some((line, behind)) => {
                if line.starts_with(words) {
                    kept.push_str(line)?;
                    kept.push_str("\n")?;
                }
                rest = behind;
            }
            None => return Ok(kept),
        }
    }
    Ok(kept)
}

/// The datagram that a step sent, if it sent one.
fn datagram_of(alloc: Global, step: &Step) -> Result<Option<Vec<u8>>, AllocError> {
    match &step.answer {
        Answer::Out { bytes, .. } => {
            let bytes = Vec::from_slice(alloc, bytes.as_slice())?;
            Ok(Some(bytes))
        }
        _ => Ok(None),
    }
}

/// The datagram that the last step of a trace sent, if it sent one.
fn last_datagram(alloc: Global, trace: &Trace) -> Result<Option<Vec<u8>>, AllocError> {
    match trace.as_slice().last() {
        Some(step) => datagram_of(alloc, step),
        None => Ok(None),
    }
}

impl End {
    /// The client whose first packets go to the id of eight such bytes.
    pub(crate) fn client(alloc: Global, first: u8) -> Result<End, AllocError> {
        End::client_with(alloc, first, TransportConfig::default())
    }

    /// The same with this transport.
    pub(crate) fn client_with(
        alloc: Global,
        first: u8,
        transport: TransportConfig,
    ) -> Result<End, AllocError> {
        let connection = client_to(alloc, ConnectionId::new(&[first; 8]), transport)?;
        Ok(End::of(alloc, connection, client_address()))
    }

    /// The client whose first packets go to the id of eight bytes 03, with a token out of this store where there is one.
    pub(crate) fn client_storing(
        alloc: Global,
        store: &mut TokenMemoryCache,
    ) -> Result<End, AllocError> {
        let connection = client_storing(alloc, store)?;
        Ok(End::of(alloc, connection, client_address()))
    }

    /// The server that takes so many bytes of a stream, and of all streams together; as many as usual where no number is said.
    pub(crate) fn server(alloc: Global, window: Option<u32>) -> Result<End, AllocError> {
        let connection = server(alloc, window)?;
        Ok(End::of(alloc, connection, server_address()))
    }

    /// The server that sends so many tokens, at 42 seconds since the epoch.
    pub(crate) fn server_sending(alloc: Global, sent: u32) -> Result<End, AllocError> {
        let connection = server_sending(alloc, sent)?;
        Ok(End::of(alloc, connection, server_address()))
    }

    /// The end with this connection, whose datagrams come from this address.
    fn of(alloc: Global, connection: Box<Connection<Toy>>, address: SocketAddr) -> End {
        End {
            connection,
            address,
            text: String::new(alloc),
            quiet: false,
            tally: Tally::none(),
            posts: Posts::none(),
        }
    }

    /// Puts the text of a step behind that of the others, unless this end is quiet, and counts what it told of streams and datagrams.
    fn note(&mut self, alloc: Global, input: &Input, trace: &Trace) -> Result<(), Fail> {
        if let Some(step) = trace.as_slice().last() {
            self.tally.count(input, step);
            self.posts.count(input, step);
        }
        if !self.quiet {
            let text = String::from_utf8(trace_text(alloc, trace)?)?;
            self.text.push_str(text.as_str())?;
        }
        Ok(())
    }

    /// One input: gives the datagram that it sent, if it sent one.
    fn step(&mut self, alloc: Global, input: &Input) -> Result<Option<Vec<u8>>, Fail> {
        self.step_storing(alloc, input, &mut NoneTokenStore)
    }

    /// The same with this store of tokens.
    fn step_storing<S: TokenStore>(
        &mut self,
        alloc: Global,
        input: &Input,
        store: &mut S,
    ) -> Result<Option<Vec<u8>>, Fail> {
        let inputs = slice::from_ref(input);
        match drive(alloc, &mut self.connection, inputs, store) {
            Ok(trace) => {
                self.note(alloc, input, &trace)?;
                Ok(last_datagram(alloc, &trace)?)
            }
            Err(_) => Err(Fail::from("an input was refused")),
        }
    }

    /// What waits may be sent at this time: gives the datagram, if one is sent.
    pub(crate) fn sends(&mut self, alloc: Global, nanos: u64) -> Result<Option<Vec<u8>>, Fail> {
        let input = Input::Transmit {
            now: Instant::from_nanos(nanos),
            max_datagrams: 1,
        };
        self.step(alloc, &input)
    }

    /// A datagram comes at this time from this address, with this mark.
    pub(crate) fn takes(
        &mut self,
        alloc: Global,
        nanos: u64,
        remote: SocketAddr,
        ecn: Option<EcnCodepoint>,
        datagram: &[u8],
    ) -> Result<(), Fail> {
        let input = Input::Datagram {
            now: Instant::from_nanos(nanos),
            remote,
            ecn,
            bytes: Body::from_slice(alloc, datagram)?,
        };
        let _none = self.step(alloc, &input)?;
        Ok(())
    }

    /// A datagram of the other end comes at this time, and the tokens in it go into this store.
    pub(crate) fn takes_storing(
        &mut self,
        alloc: Global,
        nanos: u64,
        remote: SocketAddr,
        datagram: &[u8],
        store: &mut TokenMemoryCache,
    ) -> Result<(), Fail> {
        let input = Input::Datagram {
            now: Instant::from_nanos(nanos),
            remote,
            ecn: None,
            bytes: Body::from_slice(alloc, datagram)?,
        };
        let _none = self.step_storing(alloc, &input, store)?;
        Ok(())
    }

    /// The application makes a call.
    pub(crate) fn calls(&mut self, alloc: Global, input: &Input) -> Result<(), Fail> {
        let _none = self.step(alloc, input)?;
        Ok(())
    }

    /// The application asks for a PING.
    pub(crate) fn pings(&mut self, alloc: Global, nanos: u64) -> Result<(), Fail> {
        let input = Input::Ping {
            now: Instant::from_nanos(nanos),
        };
        let _none = self.step(alloc, &input)?;
        Ok(())
    }

    /// The application asks for an update of the keys.
    pub(crate) fn updates(&mut self, alloc: Global, nanos: u64) -> Result<(), Fail> {
        let input = Input::Update {
            now: Instant::from_nanos(nanos),
        };
        let _none = self.step(alloc, &input)?;
        Ok(())
    }

    /// The application updates the keys by its own call: whether they were updated.
    pub(crate) fn forces_update(&mut self) -> bool {
        self.connection.force_key_update()
    }

    /// The same by the other name of that call.
    pub(crate) fn initiates_update(&mut self) -> bool {
        self.connection.initiate_key_update()
    }

    /// The application closes with code 7 and the reason `bye`.
    pub(crate) fn closes(&mut self, alloc: Global, nanos: u64) -> Result<(), Fail> {
        let input = Input::Close {
            now: Instant::from_nanos(nanos),
            code: VarInt::from_u32(7),
            reason: Body::from_slice(alloc, b"bye")?,
        };
        let _none = self.step(alloc, &input)?;
        Ok(())
    }

    /// Its timers may have come by this time.
    pub(crate) fn expires(&mut self, alloc: Global, nanos: u64) -> Result<(), Fail> {
        let input = Input::Timeout {
            now: Instant::from_nanos(nanos),
        };
        let _none = self.step(alloc, &input)?;
        Ok(())
    }

    /// The time in nanoseconds at which it wants to be called again, if any.
    pub(crate) fn timer(&self) -> Option<u64> {
        match self.connection.poll_timeout() {
            Some(time) => Some(time.nanos()),
            None => None,
        }
    }

    /// All datagrams that it sends at this time, up to 20.
    pub(crate) fn flight(&mut self, alloc: Global, nanos: u64) -> Result<Vec<Vec<u8>>, Fail> {
        let mut flight = Vec::new(alloc);
        for _ in 0..20 {
            match self.sends(alloc, nanos)? {
                Some(datagram) => flight.push(datagram)?,
                None => return Ok(flight),
            }
        }
        Ok(flight)
    }

    /// Its steps so far aren't told any more.
    pub(crate) fn forget(&mut self) {
        self.text.clear();
    }

    /// Its steps from now on aren't told in the text.
    pub(crate) fn hush(&mut self) {
        self.quiet = true;
    }

    /// The lines of its steps that begin with these words.
    pub(crate) fn told(&self, alloc: Global, words: &str) -> Result<String, AllocError> {
        lines_with(alloc, self.text.as_str(), words)
    }
}
