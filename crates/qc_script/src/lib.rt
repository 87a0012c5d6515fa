//! The script that a run follows, read into what its set lines say and the inputs of a connection.
//!
//! ASCII lines, each ended by LF, fields separated by one space. First come the set lines, in this order: `set side S`,
//! where S is `client` or `server`, and then at most one each of `set random W`, `set time N`, `set local HEX`,
//! `set remote HEX`, `set first HEX`, `set orig HEX`, `set retry HEX`, `set addr A`, `set validated F`, `set token HEX`,
//! `set secret HEX`, `set limit_initial N`, `set limit_handshake N`, `set limit_data N`, `set limit_failures N`, `set idle N`,
//! `set mtud F`, `set gso F`, `set sent N` and `set clock N`. W is `zero` or the 32 bytes of a seed in hex. An id
//! has at most 20 bytes; on a client the remote one has 8 at least (RFC 9000, section 7.2). Only a server has a first id, one
//! from before its Retry and one of its Retry (RFC 9000, section 17.2.5), and is told whether the peer's address is validated
//! (RFC 9000, section 8.1), how many tokens it sends, below 2^32, and the time of its clock in seconds.
//! Only a client has a token (RFC 9000, section 8.1). A secret has 5 bytes. A key of the Initial, the Handshake or the 1-RTT packets may seal as many
//! packets as its limit says, and as many packets may fail to open as `limit_failures` says (RFC 9001, section 6.6). A
//! limit on idle time is in milliseconds and below 2^62 (RFC 9000, section 10.1). F is `0` or `1`: of `gso` it is `0` where a
//! transmit has at most one datagram, and `1` where datagrams may stand behind each other. Then come the input lines
//! `datagram T A E HEX`, `timeout T`, `transmit T N`, `open T D`, `accept T D`, `write T ID HEX`, `finish T ID`,
//! `reset T ID CODE`, `stop T ID CODE`, `read T ID N`, `send T HEX`, `recv T`, `close T CODE HEX`, `ping T`,
//! `update T`, `ids T SEQ:ID:TOKEN` (with one or more ids), `streams T D N`, `sendwindow T N` and `recvwindow T N`. D is `bi` or `uni`.
//!
//! Numbers are decimal, below 2^64, without leading zeros; a code, a stream's id and the N of `streams` and
//! `recvwindow` are below 2^62. Times are in nanoseconds. Bytes are lower-case hex, and `-` where there are none. An address is the 8 or 32 lower-case hex digits of its octets, `/` and a
//! port below 2^16; an IPv6 address has flow label 0 and scope 0. A mark of explicit congestion notification is its two
//! bits, 1, 2 or 3 (RFC 3168, section 5), and `-` where there is none.
#![tactic(auto)]

mod address;
mod fields;
mod id_lines;
mod items;
mod lines;
mod script;
mod set_lines;
mod settings;
mod stream_lines;

pub use script::{Script, ScriptError, read_script};
pub use settings::{RandomWords, Settings};
