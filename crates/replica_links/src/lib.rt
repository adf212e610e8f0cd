//! The links between replicas: operations that one replica issued reach another in messages, and
//! are delivered there one by one.
//!
//! [`link_worker`] is the loop of a link's thread. Its contract says that it asks the other
//! replicas first, if it is to, and that everything else that happens to the replica and to its way
//! to the others is a sequence of turns: a message is taken and answered, or the others are asked
//! for what this replica lacks. The operations of a message are delivered each once and in their
//! order ([`hand_on`]); if a delivery stalled, held ones are applied; and if one is lacking,
//! its sender is asked. [`ReplicaTaker`] delivers to a replica under its lock, each operation by
//! one call that its pass notes.
//!
//! # Decided
//!
//! - `Taker` has `drain`, `clock` and `ops_since` besides `deliver`, and `PeerLinks` sends: what a
//!   link asks and answers is then proved over any of them, without a channel or a lock.
//! - Only the receiver repairs a link. It asks when an operation arrives that it can't apply, and
//!   asks all others each minute. A sender stores nothing of what it sent. The minute is in no
//!   contract, since no contract knows a clock; `link_tests` sets a shorter time. The time is
//!   checked before each message, or a flood of messages would put the request off.
//! - If an operation of an answer was held or refused, a replica asks again, as after any other
//!   message: a message doesn't say whether it is an answer, and one that was held may be the only
//!   one that shows a gap. So if a replica can never take an operation (a counter is used up), it
//!   and the replica that has the operation exchange it without end, with a journal entry each
//!   time. This isn't bounded: a bound by the clock last sent would leave a gap open for up to a
//!   minute if the request or its answer was lost.
//! - A link's worker rests for 250 microseconds after a message if no other is waiting: waking it
//!   takes a sender longer than sending, and operations that arrive close together wake it once. So
//!   an operation reaches another replica at once if nothing arrived just before, and otherwise up
//!   to about 0.3 ms later.
//! - The first request of a replica that joined is its link's (`LinkInput::asks_first`), so that a
//!   contract fixes the order: it asks, then takes messages.
//! - A message bears the place of its sender: a replica under its lock has no name for a channel,
//!   and the answer to a `Have` goes to the replica that sent it.
//! - `LinkMsg::Stop` ends a link even if senders are left, since all threads of a program may share
//!   the senders.
//! - In the result of `hand_on`, an operation is lacking if the journal had no room or was
//!   cut, or if it is held; not if it conflicts with another one, since it will never be applied.
#![tactic(auto)]

mod have_answer;
mod link_input;
mod op_taker;
mod peer_msg;
mod replica_taker;
mod took;

pub use have_answer::{PeerLinks, answer_request, ask_all, take_ops};
pub use link_input::{LinkInput, link_worker};
pub use op_taker::{Taker, hand_on};
pub use peer_msg::{LinkMsg, PeerMsg};
pub use replica_lock::Gate;
pub use replica_taker::ReplicaTaker;
pub use took::Took;
